// Saves the labels of its input to a file and lists that file; then lists files that are refused and one that is not there, and saves where
// it cannot.
#![tactic(auto)]

fn main(rt: HostRuntime) {
    let mut from = rt.stdin();
    let mut to = rt.stdout();
    let mut err = rt.stderr();
    card_commands::save(&rt, &mut from, &mut to, &mut err, b"labels.card");
    card_commands::list(&rt, &mut to, &mut err, b"labels.card");
    card_commands::list(&rt, &mut to, &mut err, b"cut.card");
    card_commands::list(&rt, &mut to, &mut err, b"damaged.card");
    card_commands::list(&rt, &mut to, &mut err, b"unsorted.card");
    card_commands::list(&rt, &mut to, &mut err, b"crowded.card");
    card_commands::list(&rt, &mut to, &mut err, b"missing.card");
    card_commands::save(&rt, &mut from, &mut to, &mut err, b"missing/labels.card");
}
