//! Where a frame is.

/// The method of a frame and the place of its instruction.
#[derive(Clone, Copy, PartialEq, Eq)]
pub struct FramePlace {
    /// The number of the class that declares the method: that of its [`hierarchy::ClassId`].
    pub class: usize,
    /// The method's place among the methods of that class.
    pub method: usize,
    /// The place of the instruction in the method, from 0.
    pub place: usize,
    /// Whether the frame is the first of a body: of an initializer, or of main.
    pub is_first: bool,
}
