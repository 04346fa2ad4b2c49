// What the command line asks for.
ghost use Rattle.std.specs.Prelude.{◌≤◌, IfSome};

use disorder::Rates;
use host::Host;
use options::{Command, Opt};
use passage::Channel;

// What is asked for.
#[derive(Clone, Copy)]
pub struct Job {
    pub seed: u32,
    pub channel: Channel,
}

// How many in a thousand; none where the option is not given.
fn in_a_thousand(host: &Host, option: Opt) -> Option<u32>
    ensures { IfSome result (λ number. number ≤ 1000) }
{
    options::number(host, Command::Channel, option, 0, 0, 1000)
}

// What is asked for; nothing where an option has no value in its range. Each that has none is said.
pub fn asked(host: &Host) -> Option<Job> {
    let seed = options::number(host, Command::Channel, Opt::Seed, 1, 0, 4294967295);
    let loss = options::number(host, Command::Channel, Opt::Loss, 50, 0, 1000);
    let burst = options::number(host, Command::Channel, Opt::Burst, 4, 1, 64);
    let damage = options::number(host, Command::Channel, Opt::Damage, 500, 0, 1000);
    let bytes = options::number(host, Command::Channel, Opt::Bytes, 4, 0, 96);
    let bursts = in_a_thousand(host, Opt::Bursts);
    let twice = in_a_thousand(host, Opt::Twice);
    let swap = in_a_thousand(host, Opt::Swap);
    let cut = in_a_thousand(host, Opt::Cut);
    Some(Job {
        seed: seed?,
        channel: Channel {
            loss: u64::from(loss?),
            burst: u64::from(burst?),
            damage: u64::from(damage?),
            bytes: u64::from(bytes?),
            bursts: u64::from(bursts?),
            rates: Rates {
                twice: u64::from(twice?),
                swap: u64::from(swap?),
                cut: u64::from(cut?),
            },
        },
    })
}
