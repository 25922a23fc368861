// The program `rounds`: plays the schedule on standard input, and prints what comes of it. 01, "The
// program `rounds`". All there is between reading and writing is `play::play`. As the program of
// `./register play` it plays the file that its argument 2 names.
#![tactic(auto)]

ghost use Rattle.std.specs.Prelude.{◌≡◌};
ghost use Rattle.rounds.specs.Refused.{is_refused};

// Whether this is what `rounds` prints where the schedule is none, or is none from some line on.
fn is_refused(printed: &[u8]) -> bool
    ensures { result ≡ is_refused printed.now }
{
    printed.ends_with(b"too long\n")
        || printed.ends_with(b"bad start\n")
        || printed.ends_with(b" bad line\n")
}

fn main(rt: HostRuntime) {
    // One byte more than a schedule may have, so that one that is too long shows.
    let mut input = [0u8; 16385];
    let Some(len) = word::read(&rt, 2, &mut input) else {
        return;
    };
    let mut out = [0u8; 64064];
    let size = play::play(&input[..len], &mut out);
    let printed = &out[..size];
    word::answer(&rt, printed, is_refused(printed));
}
