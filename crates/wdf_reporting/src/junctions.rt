//! The lines of the junctions.

ghost use Rattle.std.specs.Prelude.{◌≡◌, ◌++◌, OnOk};
ghost use Rattle.wdf_law.specs.Trees.{adaptor_tree};
ghost use Rattle.wdf_reporting.specs.ReportText.{junction_lines, lines_text};

use crate::pieces::push_number_line;
use std::alloc::AllocError;
use wdf_law::Tree;

// The lines of a tree's junctions, each before those of its parts.
pub(crate) fn push_junctions(out: &mut Vec<u8>, tree: &Tree) -> Result<(), AllocError>
    ensures { OnOk result (out.new.items ≡ out.old.items ++ lines_text (junction_lines (adaptor_tree tree.now))) }
{
    match tree {
        Tree::Leaf { .. } => Ok(()),
        Tree::Series { m, l, r } => {
            push_number_line(out, b"junction series ", u64::from(*m))?;
            push_junctions(out, l)?;
            push_junctions(out, r)?;
            Ok(())
        }
        Tree::Parallel { m, l, r } => {
            push_number_line(out, b"junction parallel ", u64::from(*m))?;
            push_junctions(out, l)?;
            push_junctions(out, r)?;
            Ok(())
        }
    }
}
