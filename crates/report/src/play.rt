// The moves that a failing answer shows, played again. Each message is made from the speaker's branch, and heard by the monitor
// over the device's table and over the protocol's: both go on, or the device is blamed, or the machine is jammed.
ghost use Rattle.std.specs.Prelude.{◌≡◌, true, ◌≤◌, ◌++◌, length};
ghost use Rattle.table.specs.View.{view};
ghost use Rattle.message.specs.Message.{read, well_formed};
ghost use Rattle.message.specs.Judge.{allows};
ghost use Rattle.message.specs.Make.{exists, high_of};
ghost use Rattle.report.specs.inner.Lines.{Room};
ghost use Rattle.report.specs.inner.Playing.{heard_of, pair_of, settled, is_device, move_at, move_of, HasTurn, MoveSaid, Speaking, MoveSpoken, Plays, Ready, ListShows, all_lines};

use crate::write::Report;
use conversation::{Standing, State, Verdict};
use table::{Party, Sound};

// A pair of states, and whether the device is blamed there.
#[derive(Clone, Copy)]
struct Pair {
    state: u8,
    position: u8,
    blamed: bool,
}

// Where a state goes on to with a message, if it allows it, where it is that side's turn. Nothing is counted before it.
#[tactic(auto, using(crate::proofs::laws::HeardAt::hears), unfolding(crate::specs::inner::Playing::heard_of, crate::proofs::laws::HeardAt::heard_as, conversation::specs::Counts::started))]
fn hear(t: Sound, position: u8, side: Party, message: &[u8]) -> Option<u8>
    requires { HasTurn t.words.now position side × (well_formed message.now ≡ true) × (length message.now ≤ 285) }
    ensures { heard_of result ≡ allows (view t.entry.words.now) position (read message.now) }
{
    let mut out = [0u8; 285];
    let s = State {
        position,
        standing: Standing::Running,
    };
    let mut counts = questions::fresh(t.words, 1).counts;
    let heard = monitor::step(t.words, s, &mut counts, side, message, &mut out);
    match heard.verdict {
        Verdict::Forwarded => Some(heard.state.position),
        Verdict::Blamed(_, _) | Verdict::Refused(_) => None,
    }
}

// Both go on where both allow the message. Else both stay; the device is blamed where the message is its own.
#[tactic(auto, unfolding(crate::specs::inner::Playing::settled, crate::specs::inner::Playing::heard_of, crate::specs::inner::Playing::is_device))]
fn settle(i: u8, j: u8, side: Party, own: Option<u8>, other: Option<u8>) -> Pair
    ensures { pair_of result ≡ settled i j side (heard_of own) (heard_of other) }
{
    match (own, other) {
        (Some(state), Some(position)) => Pair {
            state,
            position,
            blamed: false,
        },
        _ => Pair {
            state: i, // the pair is there in either case, as `settled` has it
            position: j,
            blamed: own.is_some() && side == Party::Device,
        },
    }
}

// The message of a table's branch k, its length, and its line.
fn say(
    t: Sound,
    side: Party,
    k: u16,
    named: Option<u8>,
    message: &mut [u8; 285],
    report: &mut Report,
) -> usize
    requires { (exists (view t.words.now) k (high_of named) ≡ true) × Room report.old 24
        × (length message.old ≡ 285) }
    ensures { MoveSaid (move_of (view t.entry.words.now) side k (high_of named)) (high_of named) message.new report.old report.new result }
{
    let b = usize::from(k);
    let label = table::label_word(
        t.words[table::LABEL_HIGH + b],
        t.words[table::LABEL_LOW + b],
    );
    report.move_line(side, label, named);
    let n = message::make(t.words, k, named, message).unwrap(); // the branch is there, and 285 bytes hold its message
    usize::from(n)
}

// The two tables that are played: the device's and the protocol's.
#[derive(Clone, Copy)]
pub struct Machine<'a> {
    pub d: Sound<'a>,
    pub p: Sound<'a>,
}

impl<'a> Machine<'a> {
    // A line for each move, and how they end.
    pub fn moves(self, moves: &[u16], named: Option<u8>, report: &mut Report)
        requires { ListShows self.d.words.now self.p.words.now moves.now (high_of named) × (length report.old ≤ 13) }
        ensures { report.new ≡ report.old ++ all_lines (view self.entry.d.words.now) (view self.entry.p.words.now) moves.now (high_of named) }
    {
        let mut pair = Pair {
            state: 0,
            position: 0,
            blamed: false,
        };
        for (n, k) in moves.iter().enumerate() {
            let field = if n + 1 < moves.len() { None } else { named }; // the field that is high is one of the last move's
            pair = self.turn(pair.state, pair.position, *k, field, report);
        }
        report.ending(pair.blamed);
    }

    // The next move: its line, and where it leads.
    fn turn(self, i: u8, j: u8, k: u16, named: Option<u8>, report: &mut Report) -> Pair
        requires { Ready self.d.words.now self.p.words.now i j k (high_of named) × Room report.old 24 }
        ensures { Plays (view self.entry.d.words.now) (view self.entry.p.words.now) i j
            (move_at (view self.entry.d.words.now) (view self.entry.p.words.now) i k (high_of named)) (high_of named) report.old report.new result }
    {
        let mut message = [0; 285];
        let (side, n) = self.speak(i, k, named, &mut message, report);
        self.meet(i, j, side, &message[..n])
    }

    // The next message, with its line: where both states send it is the device's, where both receive the host's.
    fn speak(
        self,
        i: u8,
        k: u16,
        named: Option<u8>,
        message: &mut [u8; 285],
        report: &mut Report,
    ) -> (Party, usize)
        requires { Speaking self.d.words.now self.p.words.now i k (high_of named) × Room report.old 24 × (length message.old ≡ 285) }
        ensures { MoveSpoken (view self.entry.d.words.now) (view self.entry.p.words.now) i k (high_of named) message.new report.old report.new result.0 result.1 }
    {
        if self.d.words[table::SORT + usize::from(i)] == 1 {
            let n = say(self.d, Party::Device, k, named, message, report);
            return (Party::Device, n);
        }
        let n = say(self.p, Party::Host, k, named, message, report);
        (Party::Host, n)
    }

    // A message at device state i and protocol position j.
    fn meet(self, i: u8, j: u8, side: Party, message: &[u8]) -> Pair
        requires { HasTurn self.d.words.now i side × HasTurn self.p.words.now j side × (well_formed message.now ≡ true) × (length message.now ≤ 285) }
        ensures { pair_of result ≡ settled i j side (allows (view self.entry.d.words.now) i (read message.now))
            (allows (view self.entry.p.words.now) j (read message.now)) }
    {
        let own = hear(self.d, i, side, message);
        let other = hear(self.p, j, side, message);
        settle(i, j, side, own, other)
    }
}
