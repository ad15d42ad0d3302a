//! Fronts and backs of lists.

ghost use Rattle.std.specs.Prelude.{◌≡◌, ◌∷◌, ◌<◌, ◌+◌, ◌-◌, length, take, drop};

/// The first so many of these, or all.
pub(crate) fn front<T>(items: &[T], count: usize) -> &[T]
    ensures { result.now ≡ take count items.now }
{
    &items[..count.min(items.len())]
}

/// What is left after these.
pub(crate) fn back<T>(items: &[T], count: usize) -> &[T]
    ensures { result.now ≡ drop count items.now }
{
    &items[count.min(items.len())..]
}

/// The item before these last ones.
pub(crate) fn from_end<T>(items: &[T], done: usize) -> &T
    requires { done < length items.now }
    ensures { drop (length items.now - (done + 1)) items.now
        ≡ result.now ∷ drop (length items.now - done) items.now }
{
    &items[items.len() - 1 - done]
}
