// What a slice holds after a loop, laws that the loops' proofs cite, and how a slice is written from its front on.
#![tactic(auto)]

ghost use Rattle.std.specs.Prelude.{◌≡◌};
ghost use Rattle.lists.specs.Front.{written};

// Writes new contents into a slice from its front on, as far as it goes; places beyond them keep theirs.
pub fn write_front<T: Copy>(new: &[T], out: &mut [T])
    ensures { out.new ≡ written new.now out.old }
{
    let both = new.len().min(out.len());
    out[..both].copy_from_slice(&new[..both]);
}
