// Reads a trace from standard input and writes its explanation to standard output: a line for each frame at which anything changed, among the
// lines of the listing.
#![tactic(auto)]

use reading::Tells;

fn main(rt: HostRuntime) {
    reading::run(&rt, Tells::Records);
}
