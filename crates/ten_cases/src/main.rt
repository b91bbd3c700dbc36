// The ten cases of 01, "Either side of the line", through the public calls: a line for each call, as the listing writes it.
#![tactic(auto)]

use kernel::{Outcome, Tables};
use text::Cursor;

// The calls' kinds. One enum with events' is no plainer: that one is read from a number, and has none to print.
#[derive(Clone, Copy)]
enum Kind {
    Open = 1,
    Close = 3,
    Boundary = 22,
    SetBoundary = 23,
    Allocate = 24,
    Start = 256,
    Load = 258,
}

// The tables, with the RAM and where the lines go.
#[derive(Drop)]
struct Machine<'a> {
    rt: &'a HostRuntime,
    tables: Tables,
    ram: &'a mut [u8],
}

impl Machine<'_> {
    // Takes a call's tables on, and writes its line.
    #[tactic(auto, using(text::specs::Laws::Text::handed))]
    fn took(&mut self, kind: Kind, o: Outcome) {
        self.tables = o.tables;
        let answer = o.answer;
        let mut line = [0u8; 24];
        let mut to = Cursor {
            text: &mut line,
            at: 0,
        };
        to.fields(
            kind as u16,
            u16::from(answer.number()),
            u16::from(answer.a()),
            answer.b(),
        );
        to.put(b'\n');
        let n = to.at;
        let _ = self.rt.write_all(&line[..n]);
    }

    // "R = 11,074, list 252 to 255, each from a fresh start."
    fn start(&mut self) {
        let list = [252u8, 253, 254, 255];
        let o = Tables::none().start(self.ram, 11074, &list);
        self.took(Kind::Start, o);
    }

    fn open(&mut self, channel: u8, n: u16, name: &[u8]) {
        let o = self.tables.open(self.ram, channel, 0, n, name);
        self.took(Kind::Open, o);
    }

    fn open_video(&mut self, channel: u8, n: u16) {
        self.open(channel, n, b"VIDEO:");
    }

    fn close(&mut self, channel: u8) {
        let o = self.tables.close(self.ram, channel);
        self.took(Kind::Close, o);
    }

    fn boundary(&mut self) {
        let o = self.tables.boundary(self.ram);
        self.took(Kind::Boundary, o);
    }

    fn set_boundary(&mut self, boundary: u16) {
        let o = self.tables.set_user_boundary(self.ram, boundary);
        self.took(Kind::SetBoundary, o);
    }

    fn allocate(&mut self) {
        let o = self.tables.allocate(self.ram, 0);
        self.took(Kind::Allocate, o);
    }

    // Loads the last byte of 254.
    fn load_last(&mut self) {
        let mut out = [0u8; 1];
        let o = self.tables.load(self.ram, 254, 16383, 1, &mut out);
        self.took(Kind::Load, o);
    }

    fn allocate_three(&mut self) {
        self.start();
        for _ in 0..3 {
            self.allocate();
        }
    }

    fn boundary_after(&mut self, n: u16) {
        self.start();
        self.open_video(1, n);
        self.boundary();
    }

    fn open_after_bound(&mut self, n: u16) {
        self.allocate_three();
        self.set_boundary(11058);
        self.open_video(1, n);
    }

    // A channel that fills 255, and a second one in 254. Then "254 is user": its last byte is the user's to load.
    fn shared_then_user(&mut self) {
        self.start();
        self.open_video(1, 11058);
        self.open_video(2, 0);
        self.allocate();
        self.allocate();
        self.load_last();
        self.close(2);
        self.load_last();
    }

    fn names(&mut self) {
        self.start();
        for name in [b"-3:".as_slice(), b"NET-:".as_slice(), b"net07:".as_slice()] {
            self.open(1, 0, name);
        }
    }
}

fn main(rt: HostRuntime) {
    let mut ram = [0u8; 65536];
    let mut machine = Machine {
        rt: &rt,
        tables: Tables::none(),
        ram: &mut ram,
    };
    for n in [11058, 11059, 43826, 43827] {
        machine.boundary_after(n);
    }
    machine.allocate_three();
    machine.allocate();
    machine.allocate_three();
    machine.set_boundary(11075);
    machine.open_after_bound(0);
    machine.open_after_bound(1);
    machine.shared_then_user();
    machine.names();
}
