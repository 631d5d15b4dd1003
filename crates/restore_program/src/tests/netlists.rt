//! Whole runs of `print`.
use super::{BACKWARDS, GATES, PRINT, WITH_OR, expect_run, held};
use std::test::*;

#[test]
fn printed_netlists(rt: HostRuntime) -> Result<(), Fail> {
    let cases: [(&[u8], &[u8]); 7] = [
        (b"", b""),
        (
            b"# worked.bench in another spelling\nOUTPUT(q)\nOUTPUT(q)\n q = dff( g )\ng = And( n , b )   # n is driven below\nr=dff(n)\nn = Not( a )\ninput(a)\ninput(b)\n",
            b"INPUT(a)\nINPUT(b)\nOUTPUT(q)\nq = DFF(g)\ng = AND(n, b)\nn = NOT(a)\nr = DFF(n)\n",
        ),
        (GATES, GATES),
        (WITH_OR, WITH_OR),
        (
            b"q=dff(z)\r\n z = xor ( a , a ) # sum\r\nOUTPUT(q)\r\nOUTPUT(q)\r\ninput(a)",
            b"INPUT(a)\nOUTPUT(q)\nq = DFF(z)\nz = XOR(a, a)\n",
        ),
        (
            b"INPUT(b)\nINPUT(a)\nOUTPUT(z)\nz = buf(y)\ny = nand(b, a)\n",
            b"INPUT(b)\nINPUT(a)\nOUTPUT(z)\nz = BUFF(y)\ny = NAND(b, a)\n",
        ),
        (BACKWARDS, b"INPUT(a)\nq = DFF(n)\nn = NOT(a)\n"),
    ];
    for (netlist, text) in cases {
        let mut inputs = held(rt.alloc(), netlist, b"")?;
        expect_run(&rt, rt.alloc(), &PRINT, &mut inputs, 1000, (text, 0))?;
        // what was printed is printed as it is
        let mut again = held(rt.alloc(), text, b"")?;
        expect_run(&rt, rt.alloc(), &PRINT, &mut again, 1000, (text, 0))?;
    }
    Ok(())
}
