// Tests of the writer's sheet, on which bits and lists are put one behind the other. They stand here and not in `writer`, to show that another crate can name it.
use writer::{Pen, Sheet};

// No bit is put yet.
const FRONT: Pen = Pen {
    at: 0,
    held: 0,
    count: 0,
};

// A word 1234h, the end item and padding are `82 46 98`.
#[test]
fn puts_bits(rt: HostRuntime) {
    let mut text = [0xff; 3];
    let mut sheet = Sheet {
        text: &mut text,
        pen: FRONT,
    };
    sheet.put_bits(0b100_0001_0010_0011_0100, 19);
    sheet.put_bits(0b110_00, 5);
    assert_eq!(rt; sheet.pen.at, 3);
    assert_eq!(rt; text, [0x82, 0x46, 0x98]);
}

// A byte 01, a restore for the byte that is left over, the end item and padding.
#[test]
fn puts_what_is_left_over(rt: HostRuntime) {
    let mut text = [0xff; 3];
    let mut sheet = Sheet {
        text: &mut text,
        pen: FRONT,
    };
    sheet.put_items(&[0, 1, 0, 9]);
    sheet.put_bits(0b110_0000000, 10);
    assert_eq!(rt; text, [0b00000000, 0b1_10101_11, 0b0_0000000]);
}

// The same list, of which the byte that is left over is passed over.
#[test]
fn puts_a_list(rt: HostRuntime) {
    let mut text = [0xff; 3];
    let mut sheet = Sheet {
        text: &mut text,
        pen: FRONT,
    };
    sheet.put_list(&[0, 1, 0, 9]);
    sheet.put_bits(0b110_0000, 7);
    assert_eq!(rt; text, [0b00000000, 0b1_110_0000, 0xff]);
}
