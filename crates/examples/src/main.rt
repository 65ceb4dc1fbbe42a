// The marked examples of docs/RULES.md, 13: what each row of their table is answered is printed, and compared with what is marked.
#![tactic(auto)]

use marked::wrong_rows;

fn main(rt: HostRuntime) {
    wrong_rows(&rt);
}
