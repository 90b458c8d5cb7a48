// The memory that a command works in, lent by the program: a calendar, the engine's work buffer and a report.
// Slices of any length, as the engine's calls take them.
#[derive(Drop)]
pub struct Room<'a> {
    pub cal: &'a mut [u8],
    pub work: &'a mut [u8],
    pub out: &'a mut [u8],
}
