// A message to the front of the output, eight bytes at a time: no message has fewer than nine.
ghost use Rattle.std.specs.Prelude.{◌≡◌, ◌≤◌, length};
ghost use Rattle.message.specs.Make.{opening};

// The last eight bytes are copied together, though some of them were before. Tried: `copy_from_slice` of the whole message is C's memmove,
// which the library calls nowhere else, and slower on a short one.
pub fn to_front(message: &[u8], out: &mut [u8])
    requires { (8 ≤ length message.now) × (length message.now ≤ length out.old) }
    ensures { out.new ≡ opening message.now out.old }
{
    let last = message.len() - 8;
    let mut done = 0;
    while done < message.len() {
        let at = last.min(done);
        let eight = <[u8; 8]>::try_from(&message[at..at + 8]).unwrap();
        out[at..at + 8].copy_from_slice(&eight);
        done = at + 8;
    }
}
