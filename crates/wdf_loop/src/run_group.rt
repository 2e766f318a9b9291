// Some of an engine's runs.
ghost use Rattle.std.specs.Prelude.{◌≡◌, ◌+◌, ◌<◌, ◌≤◌, pos, length, map, IfOk};
ghost use Rattle.wdf_loop.specs.Cells.{value_of};
ghost use Rattle.wdf_loop.specs.RunGroups.{AreRuns, HaveGone, IsGroup, AreSilent, cells_of, greatest_width, width};
ghost use Rattle.wdf_loop.specs.RunAccounts.{HoldRuns};
ghost use Rattle.wdf_loop.specs.Runs.{cell_at};
ghost use Rattle.wdf_loop.specs.Settings.{IsPiece, IsSetting};

use crate::any_row::AnyRow;
use crate::cell::Cell;
use crate::group::group_block;
use crate::lane_cells::LaneCells;
use crate::place::Place;
use crate::rest::at_rest;
use crate::setting::Setting;
use crate::stage_row::RunRow;
use std::alloc::{AllocError, Global};
use wdf_energy::Ledger;

/// Runs that go on side by side: the cells of each stage, and room for the frames of a piece, a row
/// for each source of a frame, and one for each element that absorbs.
#[derive(Drop)]
pub(crate) enum RunGroup {
    None,
    One {
        cells: Vec<[Cell; 1]>,
        values: Vec<[i64; 1]>,
        waves: Vec<[i64; 1]>,
    },
    Two {
        cells: Vec<[Cell; 2]>,
        values: Vec<[i64; 2]>,
        waves: Vec<[i64; 2]>,
    },
    Four {
        cells: Vec<LaneCells<4>>,
        values: Vec<[i64; 4]>,
        waves: Vec<[i64; 4]>,
    },
    Eight {
        cells: Vec<LaneCells<8>>,
        values: Vec<[i64; 8]>,
        waves: Vec<[i64; 8]>,
    },
}

// Room for so many rows.
fn room<const C: usize>(alloc: Global, rows: usize) -> Result<Vec<[i64; C]>, AllocError>
    requires few { C ≤ 8 }
    ensures { IfOk result (λ v. length v.items ≡ rows) }
{
    let mut room = Vec::new(alloc);
    for _ in 0..rows {
        room.push([0; C])?;
    }
    Ok(room)
}

// The next frames of so many runs, no more than there is room for.
fn run_piece<const C: usize, R: AnyRow<C>>(
    setting: &Setting,
    done: u32,
    all: usize,
    first: usize,
    count: usize,
    samples: &[i64],
    cells: &mut [R],
    values: &mut [[i64; C]],
    waves: &mut [[i64; C]],
    output: &mut [i64],
    ledger: &mut Ledger,
)
    requires some { 1 ≤ C }
    requires runs { C ≤ 8 }
    requires within { first + C ≤ all }
    requires setting { IsSetting setting.now }
    requires piece { IsPiece setting.now done all count samples.now output.old }
    requires at { AreRuns C setting.now done (map R.cells cells.old) values.old waves.old }
    requires ledger { HoldRuns C first setting.now.schedule setting.now.plan done setting.now.layout.shares.items setting.now.layout.marks.items (map R.cells cells.old) ledger.old }
    ensures at { AreRuns C setting.now (done + count) (map R.cells cells.new) values.new waves.new }
    ensures gone { HaveGone C first setting.now done all count samples.now output.old output.new (map R.cells cells.old) (map R.cells cells.new) ledger.old ledger.new }
{
    let sources = setting.layout.feeds.len();
    let absorbing = setting.parts.absorbing.len();
    group_block::<C, R>(
        &setting.schedule,
        &setting.plan,
        &setting.layout,
        &setting.parts,
        setting.outlet,
        cells,
        done,
        all,
        first,
        count,
        samples,
        &mut values[..count * sources],
        &mut waves[..count * absorbing],
        output,
        ledger,
    );
}

impl RunGroup {
    /// At most so many runs at rest: 8, 4, 2, 1 or none.
    ///
    /// # Errors
    ///
    /// Where no memory is left.
    pub(crate) fn at_rest(
        alloc: Global,
        setting: &Setting,
        most: usize,
    ) -> Result<RunGroup, AllocError>
        requires { IsSetting setting.now }
        ensures width { IfOk result (λ g. width g ≡ greatest_width most) }
        ensures group { IfOk result (λ g. IsGroup setting.now 0 g) }
        ensures silent { IfOk result (λ g. AreSilent setting.now g) }
    {
        let values = setting.piece * setting.layout.feeds.len();
        let waves = setting.piece * setting.parts.absorbing.len();
        if most >= 8 {
            return Ok(RunGroup::Eight {
                cells: at_rest::<8, LaneCells<8>>(
                    alloc,
                    &setting.schedule,
                    &setting.plan,
                    &setting.layout,
                )?,
                values: room::<8>(alloc, values)?,
                waves: room::<8>(alloc, waves)?,
            });
        }
        if most >= 4 {
            return Ok(RunGroup::Four {
                cells: at_rest::<4, LaneCells<4>>(
                    alloc,
                    &setting.schedule,
                    &setting.plan,
                    &setting.layout,
                )?,
                values: room::<4>(alloc, values)?,
                waves: room::<4>(alloc, waves)?,
            });
        }
        if most >= 2 {
            return Ok(RunGroup::Two {
                cells: at_rest::<2, [Cell; 2]>(
                    alloc,
                    &setting.schedule,
                    &setting.plan,
                    &setting.layout,
                )?,
                values: room::<2>(alloc, values)?,
                waves: room::<2>(alloc, waves)?,
            });
        }
        if most >= 1 {
            return Ok(RunGroup::One {
                cells: at_rest::<1, [Cell; 1]>(
                    alloc,
                    &setting.schedule,
                    &setting.plan,
                    &setting.layout,
                )?,
                values: room::<1>(alloc, values)?,
                waves: room::<1>(alloc, waves)?,
            });
        }
        Ok(RunGroup::None)
    }

    /// How many runs they are.
    pub(crate) fn width(&self) -> usize
        ensures value { result ≡ width self.now }
        ensures few { result ≤ 8 }
    {
        match self {
            RunGroup::None => 0,
            RunGroup::One { .. } => 1,
            RunGroup::Two { .. } => 2,
            RunGroup::Four { .. } => 4,
            RunGroup::Eight { .. } => 8,
        }
    }

    /// The number at a place of the cells of a run.
    pub(crate) fn value(&self, run: usize, place: Place) -> i64
        requires run { run < width self.now }
        requires stage { place.stage < length (cells_of self.now) }
        ensures { result ≡ value_of place.field (cell_at (cells_of self.now) place.stage run) }
    {
        match self {
            RunGroup::None => unreachable!(),
            RunGroup::One { cells, .. } => cells[place.stage].cell(run).value(place.field),
            RunGroup::Two { cells, .. } => cells[place.stage].cell(run).value(place.field),
            RunGroup::Four { cells, .. } => cells[place.stage].cell(run).value(place.field),
            RunGroup::Eight { cells, .. } => cells[place.stage].cell(run).value(place.field),
        }
    }

    /// The next frames of these runs, which are those from `first` on of `all`.
    pub(crate) fn block(
        &mut self,
        setting: &Setting,
        done: u32,
        all: usize,
        first: usize,
        count: usize,
        samples: &[i64],
        output: &mut [i64],
        ledger: &mut Ledger,
    )
        requires within { first + width self.old ≤ all }
        requires setting { IsSetting setting.now }
        requires piece { IsPiece setting.now done all count samples.now output.old }
        requires group { IsGroup setting.now done self.old }
        requires ledger { HoldRuns (width self.old) first setting.now.schedule setting.now.plan done setting.now.layout.shares.items setting.now.layout.marks.items (cells_of self.old) ledger.old }
        ensures width { width self.new ≡ width self.old }
        ensures group { IsGroup setting.now (done + count) self.new }
        ensures gone { HaveGone (width self.old) first setting.now done all count samples.now output.old output.new (cells_of self.old) (cells_of self.new) ledger.old ledger.new }
    {
        match self {
            RunGroup::None => {}
            RunGroup::One {
                cells,
                values,
                waves,
            } => run_piece::<1, [Cell; 1]>(
                setting, done, all, first, count, samples, cells, values, waves, output, ledger,
            ),
            RunGroup::Two {
                cells,
                values,
                waves,
            } => run_piece::<2, [Cell; 2]>(
                setting, done, all, first, count, samples, cells, values, waves, output, ledger,
            ),
            RunGroup::Four {
                cells,
                values,
                waves,
            } => run_piece::<4, LaneCells<4>>(
                setting, done, all, first, count, samples, cells, values, waves, output, ledger,
            ),
            RunGroup::Eight {
                cells,
                values,
                waves,
            } => run_piece::<8, LaneCells<8>>(
                setting, done, all, first, count, samples, cells, values, waves, output, ledger,
            ),
        }
    }
}
