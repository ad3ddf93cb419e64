// What forwarding raises.
ghost use Rattle.std.specs.Prelude.{◌≡◌, ◌≤◌, ◌<◌};
ghost use Rattle.conversation.specs.Counts.{n_at, k_at, raised};

use conversation::Counts;

// One message more of a choice and of a branch, until n is 10,000.
#[tactic(auto, using(conversation::proofs::laws::Counts::raised_more, conversation::proofs::laws::Counts::raised_full))]
pub fn raise(c: &mut Counts, position: u8, branch: usize)
    requires { (position < 32) × (branch < 128) × (n_at c.old position < 10000 → k_at c.old branch ≤ 10000) }
    ensures { c.new ≡ raised c.old position branch }
{
    let chosen = conversation::CHOSEN + usize::from(position);
    if c[chosen] < conversation::MOST {
        c[chosen] += 1;
        c[conversation::TAKEN + branch] += 1;
    }
}
