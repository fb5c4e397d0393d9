// Reads a trace from standard input and writes its listing to standard output.
#![tactic(auto)]

use reading::Tells;

fn main(rt: HostRuntime) {
    reading::run(&rt, Tells::Seconds);
}
