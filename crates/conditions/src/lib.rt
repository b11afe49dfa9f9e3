// `is_cond_for` (cxx.rs): whether a name stands behind the `if` of some field of the target. Like the Rust, the code goes through the fields once: it
// gathers the `if` names in a table. The fields of the declaration with the index i are the n whose places the table of fields has from 64 i on.
#![tactic(auto)]

ghost use Rattle.std.specs.Prelude.{◌≤◌, ◌≡◌, length};
ghost use Rattle.tables.specs.Tables.{fields_of};
ghost use Rattle.conditions.specs.IfNames.{cond_names, is_cond_in, Gathered};

use definitions::Part;
use tables::Tables;

// How many `if` names there are; the table has them from 0 on.
pub fn conditions(t: &Tables, i: usize, n: usize, conds: &mut [Part]) -> usize
    requires { n ≤ length conds.old }
    ensures { Gathered (cond_names (fields_of t.now i n)) result conds.new }
{
    let mut m = 0;
    for k in 0..n {
        let at = references::place_in(t, i, k);
        if let Some(cond) = tables::cond_here(t.values, at) {
            conds[m] = cond.id;
            m += 1;
        }
    }
    m
}

// Whether the name is one of those that the table has; it is the part in use.
pub fn is_cond_for(rec: &[u8], conds: &[Part], id: Part) -> bool
    ensures { result ≡ is_cond_in rec.now conds.now id }
{
    conds.iter().any(|&name| names::same_name(rec, name, id))
}
