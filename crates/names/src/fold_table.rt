// The fold of names by a table, and its look-up: every sent name that is compared or stored goes through them.
ghost use Rattle.std.specs.Prelude.{◌≡◌};
ghost use Rattle.model.specs.Names.{fold};
ghost use Rattle.names.specs.FoldTable.{fold_table};

// Entry b is byte b folded: A to Z to a to z, other bytes as they are.
pub const FOLD: [u8; 256] = [
    // 0x00 to 0x0F
    0, 1, 2, 3, 4, 5, 6, 7, 8, 9, 10, 11, 12, 13, 14, 15,
    // 0x10 to 0x1F
    16, 17, 18, 19, 20, 21, 22, 23, 24, 25, 26, 27, 28, 29, 30, 31,
    // 0x20 to 0x2F
    32, 33, 34, 35, 36, 37, 38, 39, 40, 41, 42, 43, 44, 45, 46, 47,
    // 0x30 to 0x3F
    48, 49, 50, 51, 52, 53, 54, 55, 56, 57, 58, 59, 60, 61, 62, 63,
    // 0x40 to 0x4F
    64, 97, // A
    98, 99, 100, 101, 102, 103, 104, 105, 106, 107, 108, 109, 110, 111,
    // 0x50 to 0x5F
    112, 113, 114, 115, 116, 117, 118, 119, 120, 121, 122, // Z
    91, 92, 93, 94, 95,
    // 0x60 to 0x6F
    96, 97, // a
    98, 99, 100, 101, 102, 103, 104, 105, 106, 107, 108, 109, 110, 111,
    // 0x70 to 0x7F
    112, 113, 114, 115, 116, 117, 118, 119, 120, 121, 122, // z
    123, 124, 125, 126, 127,
    // 0x80 to 0x8F
    128, 129, 130, 131, 132, 133, 134, 135, 136, 137, 138, 139, 140, 141, 142, 143,
    // 0x90 to 0x9F
    144, 145, 146, 147, 148, 149, 150, 151, 152, 153, 154, 155, 156, 157, 158, 159,
    // 0xA0 to 0xAF
    160, 161, 162, 163, 164, 165, 166, 167, 168, 169, 170, 171, 172, 173, 174, 175,
    // 0xB0 to 0xBF
    176, 177, 178, 179, 180, 181, 182, 183, 184, 185, 186, 187, 188, 189, 190, 191,
    // 0xC0 to 0xCF
    192, 193, 194, 195, 196, 197, 198, 199, 200, 201, 202, 203, 204, 205, 206, 207,
    // 0xD0 to 0xDF
    208, 209, 210, 211, 212, 213, 214, 215, 216, 217, 218, 219, 220, 221, 222, 223,
    // 0xE0 to 0xEF
    224, 225, 226, 227, 228, 229, 230, 231, 232, 233, 234, 235, 236, 237, 238, 239,
    // 0xF0 to 0xFF
    240, 241, 242, 243, 244, 245, 246, 247, 248, 249, 250, 251, 252, 253, 254, 255,
];

// A byte folded, by a copy of the table. A caller makes one copy for all bytes of a name: a constant that is indexed is copied at each look-up.
pub fn folded(table: &[u8; 256], b: u8) -> u8
    requires { table.now ≡ fold_table }
    ensures { result ≡ fold b }
{
    table[b as usize]
}
