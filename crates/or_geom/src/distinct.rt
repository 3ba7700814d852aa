ghost use Rattle.std.specs.Prelude.{◌≡◌, IsTrue, Contains};
ghost use Rattle.std.specs.List.Sorted.{IsStrictlySortedBy};

/// Sorts the list and drops what stands in it twice. What compares as equal has to be equal for nothing to be lost,
/// which the premise of `keeps` says of the type.
pub fn sort_distinct<T: Ord + Drop>(list: &mut Vec<T>)
    ensures rises { IsStrictlySortedBy T.cmp list.new.items }
    ensures keeps { ((x y : T) → IsTrue (T.eq x y) → x ≡ y) → (x : T) → Contains list.old.items x
        → Contains list.new.items x }
    ensures adds_none { (x : T) → Contains list.new.items x → Contains list.old.items x }
{
    list.sort_unstable();
    list.dedup();
}
