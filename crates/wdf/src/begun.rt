use wdf_frames::WaveRun;

/// A run that can begin: its report is made, and its memory is taken.
#[derive(Drop)]
pub struct Begun {
    pub report: Vec<u8>,
    /// How many frames the wave has.
    pub frames: u32,
    pub wave_run: WaveRun,
}
