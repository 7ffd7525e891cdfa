// Whether an ikey lies at or above a left edge and below a right one, for the walk. An edge is the ikey that stands there, where one does.
ghost use Rattle.std.specs.Prelude.{◌≡◌, ◌&&◌, suc, leb, ltb};
ghost use Rattle.edge.specs.Edges.{left_of, right_of};

// Whether an ikey lies at or above the left edge.
pub fn is_from(low: Option<u64>, ikey: u64) -> bool
    ensures { result ≡ leb (left_of low) (suc ikey) }
{
    match low {
        None => true,
        Some(left) => left <= ikey,
    }
}

// Whether an ikey lies below the right edge.
pub fn is_before(high: Option<u64>, ikey: u64) -> bool
    ensures { result ≡ ltb (suc ikey) (right_of high) }
{
    match high {
        None => true,
        Some(right) => ikey < right,
    }
}

// Whether an ikey lies at or above the left edge and below the right one.
pub fn is_within(low: Option<u64>, high: Option<u64>, ikey: u64) -> bool
    ensures { result ≡ (leb (left_of low) (suc ikey) && ltb (suc ikey) (right_of high)) }
{
    if !is_from(low, ikey) {
        return false;
    }
    is_before(high, ikey)
}

// Whether the left edge lies strictly below the right one.
pub fn is_between(low: Option<u64>, high: Option<u64>) -> bool
    ensures { result ≡ ltb (left_of low) (right_of high) }
{
    match low {
        None => true,
        Some(left) => is_before(high, left),
    }
}
