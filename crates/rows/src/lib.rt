// Lists of entries: the search for an entry, the question whether all differ, and clearing.
#![tactic(auto)]

ghost use Rattle.std.specs.Prelude.{◌≡◌, ℕ, true, Decides, slice_index_or};
ghost use Rattle.rows.specs.Found.{Differ, Found, HeldAt, NoneTwice};

// Entries that are equal only where they are one and the same.
pub trait Exact: Eq {
    ghost exact: { (x y : Self) → Self.eq x y ≡ true → x ≡ y };
}

// The lowest place whose entry equals x.
pub fn find_same<T: PartialEq>(entries: &[T], x: &T) -> Option<usize>
    ensures { Found T.eq entries.now x.now result }
{
    entries.iter().position(|entry| entry == x)
}

// Whether no entry equals an earlier one.
pub fn all_differ<T: PartialEq>(entries: &[T]) -> bool
    ensures { Decides result (Differ T.eq entries.now) }
{
    for (k, entry) in entries.iter().enumerate() {
        if find_same(&entries[..k], entry).is_some() {
            return false;
        }
    }
    true
}

// The lowest place that holds x.
pub fn find<T: Exact>(entries: &[T], x: &T) -> Option<usize>
    ensures { HeldAt entries.now x.now result }
{
    find_same(entries, x)
}

// Whether no entry stands at two places.
pub fn stand_once<T: Exact>(entries: &[T]) -> bool
    ensures { Decides result (NoneTwice entries.now) }
{
    all_differ(entries)
}

// Puts the same entry everywhere.
// Kept: a loop, since `fill` asks for a clone that cannot fail, which a bound `Copy` does not tell.
pub fn clear<T: Copy>(table: &mut [T], zero: T)
    ensures { (k : ℕ) → slice_index_or table.new k zero ≡ zero }
{
    for entry in table {
        *entry = zero;
    }
}
