// Where the raw lines go by one pass after another: one table of moves over the raw lines, which each pass takes on by the moves of its own lines.
#![tactic(auto)]

ghost use Rattle.std.specs.Prelude.{◌≡◌};
ghost use Rattle.trails.specs.Inner.Trails.{sent_by, thinned};

// How far down a line goes that goes to the `d`-th that stands below it, by the raw moves of the lines below.
fn sent(below: &[usize], d: usize) -> usize
    ensures { result ≡ sent_by below.now d }
{
    if below.len() < d {
        return origins::FAR;
    }
    let mut c = d;
    for (j, m) in below.iter().enumerate() {
        if c == 0 {
            return j;
        }
        if *m == 0 {
            c -= 1;
        }
    }
    if c == 0 {
        return below.len();
    }
    origins::FAR
}

// Takes a table of raw moves on by the moves of a pass, one for each line that stands.
pub fn carry(moves: &[usize], raw: &mut [usize])
    ensures { raw.new ≡ thinned raw.old moves.now }
{
    let mut k = 0;
    for i in 0..raw.len() {
        if raw[i] == 0 {
            if k == moves.len() {
                return;
            }
            let d = moves[k];
            if d != 0 {
                let s = sent(&raw[i + 1..], d);
                raw[i] = s;
            }
            k += 1;
        }
    }
}
