// The carrier that holds frames.
use crate::frame::Frame;
use carriage::list::ListCarrier;

pub type FrameCarrier<'a> = ListCarrier<'a, Frame>;
