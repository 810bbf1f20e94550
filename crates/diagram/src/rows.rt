// The plain data of a diagram.

// One outcome: the step that it belongs to, and where it sends each party; 255 for a party outside the step.
// No `Option`: these are the record's own eight bytes, and 255 is what the format has there.
#[derive(Clone, Copy, Debug)]
pub struct Row {
    pub step: u8,
    pub to: [u8; 8],
}
