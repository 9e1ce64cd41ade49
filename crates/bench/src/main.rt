// The bench program (01, 'On the bench table').
#![tactic(auto)]

use run::run;
use turn::Outcomes;

fn main(rt: HostRuntime) {
    run(rt.stdin(), rt.stdout(), &Outcomes);
}
