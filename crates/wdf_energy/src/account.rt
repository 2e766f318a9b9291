// The account of a channel: its sums of squares, and the frames that go into them.
ghost use Rattle.std.specs.Prelude.{◌≡◌, ℕ, ◌+◌, ◌*◌, ◌<◌, ◌≤◌, ◌^◌, length, map, replicate, take, pos, All, slice_index_or};
ghost use Rattle.std.specs.List.{sum_by};
ghost use Rattle.wdf_algebra.specs.Squares.{square};
ghost use Rattle.wdf_energy.specs.Accounts.{wave_at, with_squares};
ghost use Rattle.wdf_energy.specs.PortLists.{AreWalked, elems, every_row, parts_along, squares_over};

use crate::port::Port;

// What a ledger keeps of a channel. An element's place in the two lists is that of its port in the
// ledger's lists of ports.
#[derive(Clone, Copy)]
pub(crate) struct Account {
    // The sum of e² over the sources and the frames.
    pub(crate) incident: u128,
    // For each resistor and source the sum of the squares of its down waves.
    pub(crate) squares: [u128; 128],
    // For each capacitor and inductor its last down wave.
    pub(crate) state: [i64; 128],
}

// The square of a wave.
fn square(wave: i64) -> u128
    ensures { result ≡ square wave }
{
    let wide = i128::from(wave);
    (wide * wide) as u128
}

// The sum with the squares of these values.
#[tactic(auto, using(crate::proofs::ListLemmas::values_more))]
fn with_values(sum: u128, values: &[i64]) -> u128
    requires { sum + sum_by square values.now < 2 ^ 124 }
    ensures { result ≡ sum + sum_by square values.now }
{
    let mut total = sum;
    for value in values {
        total += square(*value);
    }
    total
}

// Adds to each port's sum the square of the wave that its element is sent.
fn add_squares(ports: &[Port], downs: &[i64], squares: &mut [u128; 128])
    requires walked { AreWalked (length downs.now) ports.now }
    requires room { All (λ s. s < 2 ^ 124) (with_squares (wave_at downs.now) (elems ports.now) (take (length ports.now) squares.old)) }
    ensures { take (length ports.now) squares.new ≡ with_squares (wave_at downs.now) (elems ports.now) (take (length ports.now) squares.old) }
{
    for i in 0..ports.len() {
        squares[i] += square(downs[ports[i].elem as usize]);
    }
}

// Keeps the waves that the ports' elements are sent.
fn keep_waves(ports: &[Port], downs: &[i64], state: &mut [i64; 128])
    requires walked { AreWalked (length downs.now) ports.now }
    ensures { take (length ports.now) state.new ≡ map (wave_at downs.now) (elems ports.now) }
{
    for i in 0..ports.len() {
        state[i] = downs[ports[i].elem as usize];
    }
}

// The sum with the squares that a column has in so many rows, the first at `from`, each `width` rows
// behind the one before.
fn column_squares<const C: usize>(
    sum: u128,
    rows: &[[i64; C]],
    column: usize,
    from: usize,
    width: usize,
    count: usize,
) -> u128
    requires runs { C ≤ 8 }
    requires column { column < C }
    requires inside { (f : ℕ) → f < count → f * width + from < length rows.now }
    requires room { sum + squares_over (every_row width rows.now column from) count < 2 ^ 124 }
    ensures { result ≡ sum + squares_over (every_row width rows.now column from) count }
{
    let mut total = sum;
    for f in 0..count {
        total += square(rows[f * width + from][column]);
    }
    total
}

// Adds to each of the first `width` sums the squares that the column has of it: rows are `width` in
// each of so many frames.
fn add_columns<const C: usize>(
    width: usize,
    column: usize,
    count: usize,
    rows: &[[i64; C]],
    squares: &mut [u128; 128],
)
    requires runs { C ≤ 8 }
    requires column { column < C }
    requires few { width ≤ 128 }
    requires rows { length rows.now ≡ count * width }
    requires room { (i : ℕ) → i < width → slice_index_or squares.old i 0 + squares_over (every_row width rows.now column i) count < 2 ^ 124 }
    ensures { (i : ℕ) → i < width → slice_index_or squares.new i 0 ≡ slice_index_or squares.old i 0 + squares_over (every_row width rows.now column i) count }
{
    for i in 0..width {
        squares[i] = column_squares::<C>(squares[i], rows, column, i, width, count);
    }
}

impl Account {
    // The account before the first frame.
    pub(crate) fn new() -> Account
        ensures incident { result.incident ≡ 0 }
        ensures squares { result.squares ≡ replicate 128 0 }
        ensures state { result.state ≡ replicate 128 (pos 0) }
    {
        Account {
            incident: 0,
            squares: [0; 128],
            state: [0; 128],
        }
    }

    // Notes a frame: the values of the sources, and the waves that the elements are sent.
    pub(crate) fn note(
        &mut self,
        absorbing: &[Port],
        reactive: &[Port],
        values: &[i64],
        downs: &[i64],
    )
        requires absorbing { AreWalked (length downs.now) absorbing.now }
        requires reactive { AreWalked (length downs.now) reactive.now }
        requires incident { self.old.incident + sum_by square values.now < 2 ^ 124 }
        requires squares { All (λ s. s < 2 ^ 124) (with_squares (wave_at downs.now) (elems absorbing.now) (take (length absorbing.now) self.old.squares)) }
        ensures incident { self.new.incident ≡ self.old.incident + sum_by square values.now }
        ensures squares { take (length absorbing.now) self.new.squares ≡ with_squares (wave_at downs.now) (elems absorbing.now) (take (length absorbing.now) self.old.squares) }
        ensures state { take (length reactive.now) self.new.state ≡ map (wave_at downs.now) (elems reactive.now) }
    {
        self.incident = with_values(self.incident, values);
        add_squares(absorbing, downs, &mut self.squares);
        keep_waves(reactive, downs, &mut self.state);
    }

    // Notes so many frames, of which this column of the rows has the values of the sources and the
    // waves that the absorbing elements are sent; `downs` are those of all elements in the last.
    pub(crate) fn note_block<const C: usize>(
        &mut self,
        absorbing: &[Port],
        reactive: &[Port],
        column: usize,
        count: usize,
        values: &[[i64; C]],
        waves: &[[i64; C]],
        downs: &[i64],
    )
        requires runs { C ≤ 8 }
        requires column { column < C }
        requires absorbing { length absorbing.now ≤ 128 }
        requires reactive { AreWalked (length downs.now) reactive.now }
        requires waves { length waves.now ≡ count * length absorbing.now }
        requires incident { self.old.incident + squares_over (every_row 1 values.now column 0) (length values.now) < 2 ^ 124 }
        requires squares { (i : ℕ) → i < length absorbing.now → i < length self.old.squares
            → slice_index_or self.old.squares i 0 + squares_over (every_row (length absorbing.now) waves.now column i) count < 2 ^ 124 }
        ensures incident { self.new.incident ≡ self.old.incident + squares_over (every_row 1 values.now column 0) (length values.now) }
        ensures places { length self.new.squares ≡ length self.old.squares }
        ensures squares { (i : ℕ) → i < length absorbing.now
            → slice_index_or self.new.squares i 0 ≡ slice_index_or self.old.squares i 0 + squares_over (every_row (length absorbing.now) waves.now column i) count }
        ensures state { take (length reactive.now) self.new.state ≡ map (wave_at downs.now) (elems reactive.now) }
    {
        self.incident = column_squares::<C>(self.incident, values, column, 0, 1, values.len());
        add_columns::<C>(absorbing.len(), column, count, waves, &mut self.squares);
        keep_waves(reactive, downs, &mut self.state);
    }

    // The total of the sums of squares.
    #[tactic(auto, using(crate::proofs::ListLemmas::parts_more))]
    pub(crate) fn absorbed(&self, ports: &[Port]) -> u128
        requires few { length ports.now ≤ 128 }
        requires some { All (λ p. 0 < p.ratio) ports.now }
        requires fits { parts_along ports.now self.now.squares < 2 ^ 128 }
        ensures { result ≡ parts_along ports.now self.now.squares }
    {
        let mut total = 0;
        for i in 0..ports.len() {
            total += ports[i].part(self.squares[i]);
        }
        total
    }

    // The total of the squares of the state.
    #[tactic(auto, using(crate::proofs::ListLemmas::squares_more))]
    pub(crate) fn stored(&self, ports: &[Port]) -> u128
        requires few { length ports.now ≤ 128 }
        requires some { All (λ p. 0 < p.ratio) ports.now }
        requires fits { parts_along ports.now (map square self.now.state) < 2 ^ 128 }
        ensures { result ≡ parts_along ports.now (map square self.now.state) }
    {
        let mut total = 0;
        for i in 0..ports.len() {
            total += ports[i].part(square(self.state[i]));
        }
        total
    }
}
