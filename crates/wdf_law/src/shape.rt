ghost use Rattle.std.specs.Prelude.{◌≡◌, ◌≤◌, IfOk, length};
ghost use Rattle.wdf_law.specs.Outline.{outline, outline_depth, outline_elements, outline_first, has_number};
ghost use Rattle.wdf_law.specs.Reversal.{reversed};

use crate::Kind;
use std::alloc::{AllocError, Global};
use std::mem;

/// A series-parallel network between two nodes, before its junctions have multipliers.
#[derive(Drop)]
pub enum Shape {
    /// The element with the number `elem`. `flip` is set where the element is written against the
    /// direction of its place in the shape.
    Leaf { elem: u32, kind: Kind, flip: bool },
    /// Two shapes in series, the end of `l` at the beginning of `r`.
    Ser { l: Box<Shape>, r: Box<Shape> },
    /// Two shapes in parallel, between the same two nodes.
    Par { l: Box<Shape>, r: Box<Shape> },
}

impl Shape {
    /// The same shape once more.
    ///
    /// # Errors
    ///
    /// Where no memory is left.
    pub fn copy(&self, alloc: Global) -> Result<Shape, AllocError>
        ensures { IfOk result (λ shape. outline shape ≡ outline self.now) }
    {
        match self {
            Shape::Leaf { elem, kind, flip } => Ok(Shape::Leaf {
                elem: *elem,
                kind: *kind,
                flip: *flip,
            }),
            Shape::Ser { l, r } => {
                let l = Box::new(alloc, l.copy(alloc)?)?;
                let r = Box::new(alloc, r.copy(alloc)?)?;
                Ok(Shape::Ser { l, r })
            }
            Shape::Par { l, r } => {
                let l = Box::new(alloc, l.copy(alloc)?)?;
                let r = Box::new(alloc, r.copy(alloc)?)?;
                Ok(Shape::Par { l, r })
            }
        }
    }

    /// The same network from its end to its beginning. The shape is changed in place, and no box
    /// is made.
    pub fn reversed(mut self) -> Shape
        ensures { outline result ≡ reversed (outline self) }
    {
        self.reverse();
        self
    }

    /// Turns the shape round in place: from then on it is its own reversal.
    pub fn reverse(&mut self)
        ensures { outline self.new ≡ reversed (outline self.old) }
    {
        match self {
            Shape::Leaf { flip, .. } => *flip = !*flip,
            Shape::Ser { l, r } => {
                l.reverse();
                r.reverse();
                mem::swap(l, r);
            }
            Shape::Par { l, r } => {
                l.reverse();
                r.reverse();
            }
        }
    }

    /// 0 for a leaf, and one more than its deeper part for a junction.
    pub fn depth(&self) -> usize
        requires { outline_depth (outline self.now) ≤ 128 }
        ensures { result ≡ outline_depth (outline self.now) }
    {
        match self {
            Shape::Leaf { .. } => 0,
            Shape::Ser { l, r } | Shape::Par { l, r } => 1 + l.depth().max(r.depth()),
        }
    }

    /// How many leaves the shape has.
    pub fn leaf_count(&self) -> usize
        requires { length (outline_elements (outline self.now)) ≤ 128 }
        ensures { result ≡ length (outline_elements (outline self.now)) }
    {
        match self {
            Shape::Leaf { .. } => 1,
            Shape::Ser { l, r } | Shape::Par { l, r } => l.leaf_count() + r.leaf_count(),
        }
    }

    /// The number of the first leaf, the first part before the second.
    pub fn first_leaf(&self) -> u32
        ensures { result ≡ outline_first (outline self.now) }
    {
        match self {
            Shape::Leaf { elem, .. } => *elem,
            Shape::Ser { l, .. } | Shape::Par { l, .. } => l.first_leaf(),
        }
    }

    /// Whether a leaf has this number.
    pub fn has_leaf(&self, number: u32) -> bool
        ensures { result ≡ has_number (outline self.now) number }
    {
        match self {
            Shape::Leaf { elem, .. } => *elem == number,
            Shape::Ser { l, r } | Shape::Par { l, r } => l.has_leaf(number) || r.has_leaf(number),
        }
    }
}
