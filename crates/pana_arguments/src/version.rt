/// The program's version, and the line of the kit that it is proved with, as `rt version` prints it but for the letter behind its number.
pub const VERSION: &str = "0.2.0 (rattle-kit-13 logic dac8208d650f15bf)";
