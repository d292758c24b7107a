//! Why declarations give no sheet.
use pc_elaborate::SortFault;

/// Why declarations give no sheet, and the number of the line that is at fault; or that memory was wanted there.
#[derive(Drop)]
pub struct SheetSortFault {
    pub line: u32,
    pub fault: SortFault,
}
