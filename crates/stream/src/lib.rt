// The lowering of a list of fields as a stream of bytes, and the law that it gives what `FieldParser` gives; no code.
#![tactic(auto)]
