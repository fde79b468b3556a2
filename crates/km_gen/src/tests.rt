//! Generated scripts, written out.

use crate::generator::Generator;
use crate::script::script_of;
use std::test::Fail;

#[test]
fn first_draws_are_known(rt: HostRuntime) {
    for (number, draw) in [(1, 908_834_774), (2, 1_649_717_740), (4, 984_000_026)] {
        let mut generator = Generator {
            state: number,
            script: Vec::new(rt.alloc()),
        };
        assert_eq!(rt; generator.draw(), draw);
    }
}

#[test]
fn scripts_are_written(rt: HostRuntime) -> Result<(), Fail> {
    for (number, steps, lines) in [
        (1, 0, ""),
        (1, 1, "tick 153\n"),
        (2, 1, "load t.r1 data+3408\nkfree t.r1\n"),
        (4, 1, "kmalloc 77 t.r0\nstore data+2032 t.r0\n"),
        (
            3525,
            7,
            "begin\nstore data+2528 0\nkmalloc 204 t.r0\nstore data+3960 t.r0\nstep 64\ntick 355\nload t.r1 data+3216\nstore t.r1 t.r0\nload t.r1 data+240\nkfree t.r1\n",
        ),
    ] {
        let script = script_of(rt.alloc(), number, steps)?;
        let want = format!(in rt.alloc();
            "memory 65536\nsection data 512\ntask t\n{lines}finish\ntick 1000\nwrite scan\nwrite scan\nread\n"
        )?;
        assert_eq!(rt; script.as_slice(), want.as_bytes());
    }
    Ok(())
}
