// A list of operators in two lists that are lent.
//
// The function with a `requires` is no entry point: it serves a caller that has tested where the operators stand.

ghost use Rattle.std.specs.Prelude.{◌≡◌, ◌+◌, ◌≤◌, length};

// The operators: their octets, and their values at the same places.
#[derive(Clone, Copy)]
pub struct OperatorList<'a> {
    pub values: &'a [u64],
    pub octets: &'a [u8],
    ghost paired: { length values.now ≡ length octets.now },
}

impl<'a> OperatorList<'a> {
    ghost use Rattle.operators.specs.Ops.{ops_in};
    ghost use Rattle.operators.specs.Lent.{operators_of};

    // So many operators of two lent lists, from a place on. No entry point.
    pub fn new(values: &'a [u64], octets: &'a [u8], at: usize, count: usize) -> OperatorList<'a>
        requires values { at + count ≤ length values.now }
        requires octets { at + count ≤ length octets.now }
        ensures { operators_of result ≡ ops_in values.now octets.now at count }
    {
        let end = at + count;
        OperatorList {
            values: &values[at..end],
            octets: &octets[at..end],
        }
    }
}
