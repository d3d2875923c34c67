// Where the bus time of one matrix cycle goes.
#![tactic(auto)]

ghost use Rattle.std.specs.Prelude.{◌≡◌, [], ◌∷◌, ◌*◌, ◌<◌, ◌≤◌, Ok};
ghost use Rattle.rules.specs.Problem.{WellFormed, rows, columns as columnCount, messages as messageCount};
ghost use Rattle.losses.specs.Losses.{uncovered, FiguresAre};
ghost use Rattle.proposal.specs.Accepted.{Accepted};
ghost use Rattle.losses.specs.Parts.{held_by, Fits, Added, RowAdded, Tallied, longest, row_most, cells_most, Small};

use rules::words;

// The five figures, in network time units.
#[derive(Clone, Copy)]
pub struct BusTime {
    pub reference: u32,
    pub used: u32,
    pub in_window: u32,
    pub empty: u32,
    pub gaps: u32,
}

// The five figures as words, in the paper's order.
impl From<BusTime> for [u32; 5] {
    ghost from_gives = { λ t w. w ≡ (t.reference ∷ t.used ∷ t.in_window ∷ t.empty ∷ t.gaps ∷ []) };

    fn from(t: BusTime) -> [u32; 5] {
        [t.reference, t.used, t.in_window, t.empty, t.gaps]
    }
}

// What the cells seen so far come to.
#[derive(Drop)]
pub struct Tally {
    pub used: usize,
    pub in_window: usize,
    pub empty: usize,
}

impl Tally {
    // One cell more, which is held for x and is so wide.
    fn add_cell(&mut self, x: usize, wide: usize)
        requires { Small cells_most self.old × (x ≤ wide) × (wide ≤ longest) }
        ensures { Added self.old x wide self.new }
    {
        if x == 0 {
            self.empty += wide;
        } else {
            self.used += x;
            self.in_window += wide - x;
        }
    }
}

// How long a cell with number x is held: by no message, or by message x - 1.
fn held_for(p: &[u32], x: usize) -> usize
    requires { WellFormed p.now × (x ≤ messageCount p.now) }
    ensures { result ≡ held_by p.now x }
{
    if x == 0 {
        return 0;
    }
    words::frame_of(p, x - 1)
}

// The cells of row i, added to those of the rows before.
fn add_row(p: &[u32], table: &[u8; cells::CELLS], i: usize, tally: &mut Tally)
    requires well_formed { WellFormed p.now × Fits p.now table.now × (i < rows p.now) }
    requires small { Small (i * row_most) tally.old }
    ensures { RowAdded p.now table.now i (columnCount p.now) tally.old tally.new }
{
    for c in 0..words::columns_of(p) {
        let number = usize::from(table[cells::cell_of(i, c)]);
        tally.add_cell(held_for(p, number), words::width_of(p, c));
    }
}

// What all cells come to.
fn all_cells(p: &[u32], table: &[u8; cells::CELLS]) -> Tally
    requires { WellFormed p.now × Fits p.now table.now }
    ensures { Tallied p.now table.now (rows p.now) result }
{
    let mut tally = Tally {
        used: 0,
        in_window: 0,
        empty: 0,
    };
    for i in 0..words::rows_of(p) {
        add_row(p, table, i, &mut tally);
    }
    tally
}

// What neither reference nor columns cover of a row.
fn gap_of(p: &[u32]) -> usize
    requires { WellFormed p.now }
    ensures { (result ≡ uncovered p.now) × (result ≤ longest) }
{
    let mut covered = words::ref_len_of(p);
    for c in 0..words::columns_of(p) {
        covered += words::width_of(p, c);
    }
    words::cycle_of(p) - covered
}

// The five figures of an accepted proposal: the table of cells is filled from it, and a cell whose number stays 0 is empty.
pub fn figures(p: &[u32], w: &[u32]) -> BusTime
    requires { Accepted p.now w.now }
    ensures { FiguresAre (Ok tt) p.now w.now result }
{
    let mut table = [0u8; cells::CELLS];
    cells::fill(p, w, &mut table);
    let tally = all_cells(p, &table);
    let rows = words::rows_of(p);
    BusTime {
        reference: (rows * words::ref_len_of(p)) as u32,
        used: tally.used as u32,
        in_window: tally.in_window as u32,
        empty: tally.empty as u32,
        gaps: (rows * gap_of(p)) as u32,
    }
}
