// Why was there no GoodCRC? (02, A5): of what the bench reads, the answer for each packet.
#![tactic(auto)]

use run::run;
use turn::Reasons;

fn main(rt: HostRuntime) {
    run(rt.stdin(), rt.stdout(), &Reasons);
}
