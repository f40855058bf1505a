// Numbers put at the front of a list, and taken out there.
#![tactic(auto)]

ghost use Rattle.std.specs.Prelude.{◌≡◌, ◌++◌, pos, length, drop, replicate, ◌≤◌};
ghost use Rattle.meaning.specs.Reply.{written_over};

// Puts the numbers over what stands at the list's front.
pub fn put_front(list: &mut [i32], numbers: &[i32])
    requires { length numbers.now ≤ length list.old }
    ensures { list.new ≡ written_over numbers.now list.old }
{
    // Not `copy_from_slice`, by which the library for C would need `memmove` from outside.
    for i in 0..numbers.len() {
        list[i] = numbers[i];
    }
}

// Takes the first `size` numbers out: the others move down, and zeros fill the places that they leave.
pub fn take_out(list: &mut [i32], size: usize)
    requires { size ≤ length list.old }
    ensures { list.new ≡ drop size list.old ++ replicate size (pos 0) }
{
    list.copy_within(size.., 0);
    let kept = list.len() - size;
    list[kept..].fill(0);
}
