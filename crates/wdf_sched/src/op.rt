/// One operation of a schedule. It reads the values of some slots and writes those of others.
///
/// Each slot holds a wave, in the unit of the sources' values, but for `raw`, which holds a wave
/// before it is truncated, counted in 1/q of that unit. The multiplier `m` is counted in 1/q too; q
/// is 2^k, with the width k of the network. `trunc(z)` is z / q without its fraction.
#[derive(Clone, Copy, Debug, PartialEq, Eq)]
pub enum Op {
    /// A series junction on the way up. `a` and `b` are the waves that its first and its second
    /// part reflect, and `out` is the wave that it reflects, a + b.
    UpSeries {
        a: u16,
        b: u16,
        out: u16,
    },
    /// A parallel junction on the way up, with the multiplier `m` of its first part. `a` and `b`
    /// are the waves that its parts reflect, `raw` is m·a + (q - m)·b, and `out` is the wave that it
    /// reflects, trunc(raw).
    UpParallel {
        a: u16,
        b: u16,
        m: u32,
        raw: u16,
        out: u16,
    },
    /// The root, with the multiplier `m` of the left tree. `a` and `b` are the waves that the left
    /// and the right tree reflect. `x` is the wave that the left tree is sent,
    /// trunc(2·(m·a + (q - m)·b) - q·a), and `y` that of the right tree, with q·b in place of q·a.
    Root {
        a: u16,
        b: u16,
        m: u32,
        x: u16,
        y: u16,
    },
    /// A series junction on the way down, with the multiplier `m` of its first part. `a` and `b` are
    /// the waves that its parts reflect, and `d` is the wave that it is sent. `x` is the wave that
    /// the first part is sent, trunc(q·a + m·(d - (a + b))), and `y` that of the second part,
    /// trunc(q·b + (q - m)·(d - (a + b))).
    DownSeries {
        a: u16,
        b: u16,
        d: u16,
        m: u32,
        x: u16,
        y: u16,
    },
    /// A parallel junction on the way down. `a` and `b` are the waves that its parts reflect, `d` is
    /// the wave that it is sent, and `raw` is the wave that it reflects before that was truncated.
    /// `x` is the wave that the first part is sent, trunc(q·d + raw - q·a), and `y` that of the
    /// second part, trunc(q·d + raw - q·b).
    DownParallel {
        a: u16,
        b: u16,
        d: u16,
        raw: u16,
        x: u16,
        y: u16,
    },
}
