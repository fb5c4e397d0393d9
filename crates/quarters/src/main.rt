// Reads a trace from standard input and writes its quarter-hours and days to standard output.
#![tactic(auto)]

use reading::Tells;

fn main(rt: HostRuntime) {
    reading::run(&rt, Tells::Bins);
}
