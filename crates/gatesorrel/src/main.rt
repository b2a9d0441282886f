// Standard input to standard output: the report, or `refused N line K`.
#![tactic(auto)]

// The input read to its end.
fn drain() {
    let mut rest = [0u8; 4096];
    for _ in 0..u64::MAX {
        if io::read_full(0, &mut rest) < 4096 {
            return;
        }
    }
}

fn main() {
    let mut file = [0u8; 49153];
    let mut scratch = [0u16; 16384];
    let mut report = [0u8; 32768];
    let n = io::read_full(0, &mut file);
    drain();
    let m = block::print::print(&file[..n], &mut scratch, &mut report);
    io::write_all(1, &report[..m]);
}
