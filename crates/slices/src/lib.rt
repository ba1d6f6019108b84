// A store into a lent slice that answers every place: what would lie past the end is not stored, as `set` of a list has it.
#![tactic(auto)]

ghost use Rattle.std.specs.Prelude.{◌≡◌, set};

pub fn put<T: Copy>(slice: &mut [T], at: usize, value: T)
    ensures { slice.new ≡ set slice.old at value }
{
    if at < slice.len() {
        slice[at] = value;
    }
}
