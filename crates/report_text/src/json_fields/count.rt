//! How many fields an object has.
ghost use Rattle.std.specs.Prelude.{◌≡◌, if◌then◌else◌};

/// One field if it is there, else none.
pub fn one_if(is_there: bool) -> usize
    ensures { result ≡ (if is_there then 1 else 0) }
{
    if is_there { 1 } else { 0 }
}
