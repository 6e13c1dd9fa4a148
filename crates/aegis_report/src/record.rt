//! What is kept of a run.
use image_file::Image;
use off_chip::Trace;

/// What is kept of a run. Where no run started it is empty: it has no image and no event.
#[derive(Debug, Drop)]
pub struct Record {
    /// The image that was run.
    pub image: Option<Image>,
    /// All events of the run.
    pub trace: Trace,
}
