use std::alloc::{AllocError, Global};
use std::test::Fail;
use vv_base::fault::Memory;
use vv_base::memory::{MemShelf, MemSink};
use vv_top::top::v2v;

const WORDS: [&str; 5] = ["translate", "gate", "g.v", "g.csv", "g.vhd"];

// The text and the map of the gate `y <= a and not b;`.
const TEXT: &str =
    "module gate(\n  input wire a,\n  input wire b,\n  output wire y\n);\n  assign y = (a & (~b));\nendmodule\n";

const MAP: &str = "data,a,a,1,std\ndata,b,b,1,std\nout,y,y,1,std\n";

// A file of one gate with these statements.
fn gate(alloc: Global, statements: &str) -> Result<String, AllocError> {
    format!(in alloc;
        "library ieee; use ieee.std_logic_1164.all; use ieee.numeric_std.all;\n\
         entity gate is port (a, b : in std_logic; y : out std_logic); end;\n\
         architecture r of gate is begin {statements} end;\n"
    )
}

// A shelf with this file under the name.
fn shelf_with(alloc: Global, name: &str, file: &[u8], fails: &[u64]) -> Result<MemShelf, Memory> {
    let mut shelf = MemShelf::new(alloc, fails)?;
    shelf.set(name, file)?;
    Ok(shelf)
}

#[test]
fn translates_a_gate(rt: HostRuntime) -> Result<(), Fail> {
    let alloc = rt.alloc();
    let file = gate(alloc, "y <= a and not b;")?;
    for top in ["gate", "GaTe"] {
        let mut shelf = shelf_with(alloc, "g.vhd", file.as_bytes(), &[])?;
        let mut out = MemSink::new(alloc, &[])?;
        let words = ["translate", top, "g.v", "g.csv", "g.vhd"];
        assert_eq!(rt; v2v(alloc, &words, &mut shelf, &mut out), 0, "top {top}");
        assert_eq!(rt; out.bytes(), b"".as_slice());
        assert_eq!(rt; shelf.get("g.v").ok_or("no text")?, TEXT.as_bytes());
        assert_eq!(rt; shelf.get("g.csv").ok_or("no map")?, MAP.as_bytes());
        assert_eq!(rt; shelf.get("g.vhd").ok_or("no file")?, file.as_bytes());
    }
    Ok(())
}

#[test]
fn translates_designs(rt: HostRuntime) -> Result<(), Fail> {
    let alloc = rt.alloc();
    let counter = "library ieee; use ieee.std_logic_1164.all; use ieee.numeric_std.all;\n\
         entity count is port (clk, en : in std_logic; q : out unsigned(3 downto 0)); end;\n\
         architecture r of count is signal n : unsigned(3 downto 0); begin\n\
         process (clk) begin if rising_edge(clk) then if en = '1' then n <= n + 1; end if; end if; end process;\n\
         q <= n; end;\n";
    let drivers = gate(alloc, "y <= a; y <= b;")?;
    for (top, file, text, map) in [
        (
            "Count",
            counter,
            "module count(\n  input wire clk,\n  input wire en,\n  output wire [3:0] q\n);\n  reg [3:0] n;\n  \
             always @(posedge clk) begin\n    if (en) begin\n      n <= (n + 4'b0001);\n    end\n  end\n  assign q = n;\nendmodule\n",
            "clk0,clk,clk,1,std\ndata,en,en,1,std\nout,q,q,4,4 of std\nreg,n,n,4,4 of std\n",
        ),
        (
            "gate",
            drivers.as_str(),
            "module gate(\n  input wire a,\n  input wire b,\n  output wire y\n);\n  assign y = a;\n  assign y = b;\nendmodule\n",
            "data,a,a,1,std\ndata,b,b,1,std\nout,y,y,1,std\n",
        ),
    ] {
        let mut shelf = shelf_with(alloc, "g.vhd", file.as_bytes(), &[])?;
        let mut out = MemSink::new(alloc, &[])?;
        let words = ["translate", top, "g.v", "g.csv", "g.vhd"];
        assert_eq!(rt; v2v(alloc, &words, &mut shelf, &mut out), 0, "top {top}");
        assert_eq!(rt; out.bytes(), b"".as_slice());
        assert_eq!(rt; shelf.get("g.v").ok_or("no text")?, text.as_bytes());
        assert_eq!(rt; shelf.get("g.csv").ok_or("no map")?, map.as_bytes());
    }
    Ok(())
}

#[test]
fn refuses_statements(rt: HostRuntime) -> Result<(), Fail> {
    let alloc = rt.alloc();
    for (statements, line) in [
        ("y <= a and not nope;", "g.vhd:3:48: N1\n"),
        ("y <= a + b;", "g.vhd:3:38: T1\n"),
        ("y <= a and not b; z <= b;", "g.vhd:3:51: N1\n"),
        ("y <= a\n  and or b;", "g.vhd:4:7: Y1\n"),
    ] {
        let file = gate(alloc, statements)?;
        let mut shelf = shelf_with(alloc, "g.vhd", file.as_bytes(), &[])?;
        let mut out = MemSink::new(alloc, &[])?;
        assert_eq!(rt;
            v2v(alloc, &WORDS, &mut shelf, &mut out),
            1,
            "at {statements}"
        );
        assert_eq!(rt; out.bytes(), line.as_bytes(), "at {statements}");
        assert!(rt; shelf.get("g.v").is_none() && shelf.get("g.csv").is_none());
    }
    Ok(())
}

#[test]
fn refuses_files(rt: HostRuntime) -> Result<(), Fail> {
    let alloc = rt.alloc();
    let too_long = vec![in alloc; b' '; 16_777_217]?;
    let other_top = gate(alloc, "y <= a;")?;
    for (top, file, line) in [
        ("gate", b"".as_slice(), "e.vhd:1:1: E10\n"),
        ("gate", b"library iee;\n".as_slice(), "e.vhd:2:1: Y1\n"),
        ("gate", b"library ieee;".as_slice(), "e.vhd:1:14: Y1\n"),
        ("gate", b"library\n\nieee;\n".as_slice(), "e.vhd:4:1: Y1\n"),
        ("gate", too_long.as_slice(), "e.vhd:1:1: L1\n"),
        ("other", other_top.as_bytes(), "e.vhd:1:1: E10\n"),
        ("gate", b"y <= \"01".as_slice(), "e.vhd:1:6: X2\n"),
    ] {
        let mut shelf = shelf_with(alloc, "e.vhd", file, &[])?;
        let mut out = MemSink::new(alloc, &[])?;
        let words = ["translate", top, "g.v", "g.csv", "e.vhd"];
        assert_eq!(rt; v2v(alloc, &words, &mut shelf, &mut out), 1, "at {line}");
        assert_eq!(rt; out.bytes(), line.as_bytes());
        assert!(rt; shelf.get("g.v").is_none() && shelf.get("g.csv").is_none());
    }
    Ok(())
}

#[test]
fn refuses_words(rt: HostRuntime) -> Result<(), Fail> {
    let alloc = rt.alloc();
    let file = gate(alloc, "y <= a;")?;
    for line in [
        "",
        "translate gate g.v g.csv",
        "translate gate g.v g.csv g.vhd g.vhd",
        "translate gate g.v g.csv h.vhd g.vhd h.vhd",
        "translate gate g.v h.vhd g.vhd h.vhd",
        "translate gate g.v g.v g.vhd",
        "translate gate g.vhd g.csv g.vhd",
        "translate gate g.v g.vhd g.vhd",
        "translate -x g.v g.csv g.vhd",
        "Translate gate g.v g.csv g.vhd",
        "replay gate s.csv g.vhd",
        "replay vhdl gate s.csv",
        "replay vhdl -x s.csv g.vhd",
        "replay verilog gate s.csv g.csv",
        "replay verilog gate s.csv g.csv g.v g.vhd",
        "compare gate s.csv g.csv g.v",
        "compare -x s.csv g.csv g.v g.vhd",
        "gen 0 0 c.vhd s.csv c.v c.csv",
        "gen 01 0 c.vhd s.csv c.v c.csv",
        "gen 1025 0 c.vhd s.csv c.v c.csv",
        "gen 1 65536 c.vhd s.csv c.v c.csv",
        "gen 1 0 c.vhd s.csv c.v c.vhd",
        "gen 1 0 c.vhd s.csv c.v",
    ] {
        let words: Vec<&str> = line.split(' ').collect(alloc)?;
        let mut shelf = shelf_with(alloc, "g.vhd", file.as_bytes(), &[])?;
        let mut out = MemSink::new(alloc, &[])?;
        let status = v2v(alloc, words.as_slice(), &mut shelf, &mut out);
        assert_eq!(rt; status, 2, "at {line}");
        assert_eq!(rt; out.bytes(), b"usage\n".as_slice());
        assert!(rt; shelf.get("g.v").is_none() && shelf.get("g.csv").is_none());
        assert_eq!(rt; shelf.get("g.vhd").ok_or("no file")?, file.as_bytes());
    }
    Ok(())
}

#[test]
fn refuses_the_first_broken_file(rt: HostRuntime) -> Result<(), Fail> {
    let alloc = rt.alloc();
    let sound = gate(alloc, "y <= a;")?;
    let long = vec![in alloc; b' '; 16_777_217]?;
    for (first, second, line) in [
        (sound.as_bytes(), sound.as_bytes(), "h.vhd:2:8: N5\n"),
        (b"".as_slice(), b"".as_slice(), "g.vhd:1:1: E10\n"),
        (sound.as_bytes(), b"y <= \"01".as_slice(), "h.vhd:1:6: X2\n"),
        (
            b"entity".as_slice(),
            b"\n 1.5".as_slice(),
            "h.vhd:2:2: X3\n",
        ),
        (b"a ?".as_slice(), b"?".as_slice(), "g.vhd:1:3: X1\n"),
        (b"\\a\\".as_slice(), long.as_slice(), "g.vhd:1:1: X4\n"),
        (sound.as_bytes(), long.as_slice(), "h.vhd:1:1: L1\n"),
    ] {
        let mut shelf = shelf_with(alloc, "g.vhd", first, &[])?;
        shelf.set("h.vhd", second)?;
        let mut out = MemSink::new(alloc, &[])?;
        let words = ["translate", "gate", "g.v", "g.csv", "g.vhd", "h.vhd"];
        assert_eq!(rt; v2v(alloc, &words, &mut shelf, &mut out), 1, "at {line}");
        assert_eq!(rt; out.bytes(), line.as_bytes());
        assert!(rt; shelf.get("g.v").is_none() && shelf.get("g.csv").is_none());
    }
    Ok(())
}

#[test]
fn counts_files(rt: HostRuntime) -> Result<(), Fail> {
    let alloc = rt.alloc();
    let mut names: Vec<String> = Vec::new(alloc);
    for number in 0..256 {
        names.push(format!(in alloc; "f{number}.vhd")?)?;
    }
    for (count, status, line) in [
        (0, 2, "usage\n"),
        (255, 3, "read fault: f254.vhd\n"),
        (256, 2, "usage\n"),
    ] {
        let mut shelf = MemShelf::new(alloc, &[])?;
        for name in names.iter().take(254) {
            shelf.set(name, b"")?;
        }
        let mut words: Vec<&str> = Vec::new(alloc);
        for word in ["translate", "gate", "g.v", "g.csv"] {
            words.push(word)?;
        }
        for name in names.iter().take(count) {
            words.push(name)?;
        }
        let mut out = MemSink::new(alloc, &[])?;
        let found = v2v(alloc, words.as_slice(), &mut shelf, &mut out);
        assert_eq!(rt; found, status, "at {count}");
        assert_eq!(rt; out.bytes(), line.as_bytes());
    }
    Ok(())
}

#[test]
fn tells_faults(rt: HostRuntime) -> Result<(), Fail> {
    let alloc = rt.alloc();
    let file = gate(alloc, "y <= a and not b;")?;
    let none: &[u64] = &[];
    let first: &[u64] = &[0];
    let second: &[u64] = &[1];
    let third: &[u64] = &[2];
    for (name, fails, put_fails, status, line, is_saved) in [
        ("g.vhd", first, none, 3, "read fault: g.vhd\n", false),
        ("h.vhd", none, none, 3, "read fault: g.vhd\n", false),
        ("g.vhd", second, none, 4, "write fault: g.v\n", false),
        ("g.vhd", third, none, 4, "write fault: g.csv\n", true),
        ("h.vhd", none, first, 4, "", false),
        ("g.vhd", second, first, 4, "", false),
        ("g.vhd", third, first, 4, "", true),
        ("g.vhd", none, first, 0, "", true),
    ] {
        let mut shelf = shelf_with(alloc, name, file.as_bytes(), fails)?;
        let mut out = MemSink::new(alloc, put_fails)?;
        assert_eq!(rt;
            v2v(alloc, &WORDS, &mut shelf, &mut out),
            status,
            "at {line}"
        );
        assert_eq!(rt; out.bytes(), line.as_bytes());
        assert_eq!(rt; shelf.get("g.v").is_some(), is_saved);
        assert_eq!(rt; shelf.get("g.csv").is_some(), status == 0);
    }
    Ok(())
}

// A shelf with the gate, its text and its map, another text, and stimuli.
fn shelf_of_gate(alloc: Global) -> Result<MemShelf, Memory> {
    let file = gate(alloc, "y <= a and not b;")?;
    let mut shelf = shelf_with(alloc, "g.vhd", file.as_bytes(), &[])?;
    shelf.set("g.v", TEXT.as_bytes())?;
    shelf.set("g.csv", MAP.as_bytes())?;
    shelf.set(
        "or.v",
        b"module gate(input wire a, input wire b, output wire y); assign y = (a | b); endmodule",
    )?;
    shelf.set(
        "sizes.v",
        b"module gate(input wire a, input wire b, output wire y); assign y = 2'b01; endmodule",
    )?;
    shelf.set("s.csv", b"a,b\n1,0\nX,1\n")?;
    shelf.set("zz.csv", b"a,zz\n")?;
    Ok(shelf)
}

#[test]
fn runs_a_gate(rt: HostRuntime) -> Result<(), Fail> {
    let alloc = rt.alloc();
    for (line, status, printed) in [
        ("replay vhdl gate s.csv g.vhd", 0, "row,y\n0,U\n1,1\n2,0\n"),
        (
            "replay verilog Gate s.csv g.csv g.v",
            0,
            "row,y\n0,x\n1,1\n2,0\n",
        ),
        ("compare gate s.csv g.csv g.v g.vhd", 0, "equal 2\n"),
        (
            "compare gate s.csv g.csv or.v g.vhd",
            8,
            "row 2: y: vhdl 0 verilog 1\n",
        ),
        (
            "replay verilog gate s.csv g.csv sizes.v",
            9,
            "sizes.v: offset 67: V4\n",
        ),
        ("replay vhdl gate zz.csv g.vhd", 6, "zz.csv: record 0: S2\n"),
        (
            "replay verilog gate s.csv zz.csv g.v",
            6,
            "zz.csv: record 0: M1\n",
        ),
        ("replay vhdl other s.csv g.vhd", 1, "g.vhd:1:1: E10\n"),
        (
            "compare gate s.csv g.csv none.v g.vhd",
            3,
            "read fault: none.v\n",
        ),
    ] {
        let words: Vec<&str> = line.split(' ').collect(alloc)?;
        let mut shelf = shelf_of_gate(alloc)?;
        let mut out = MemSink::new(alloc, &[])?;
        let found = v2v(alloc, words.as_slice(), &mut shelf, &mut out);
        assert_eq!(rt; out.bytes(), printed.as_bytes(), "at {line}");
        assert_eq!(rt; found, status, "at {line}");
    }
    Ok(())
}

// A register that counts from 0 to 3 and no further.
const COUNT: &str = "library ieee; use ieee.std_logic_1164.all;\n\
    entity ct is port (clk : in std_logic); end;\n\
    architecture r of ct is signal n : integer range 0 to 3; begin\n\
    process (clk) begin if rising_edge(clk) then n <= n + 1; end if; end process; end;\n";

// An output that compares two inputs.
const SAME: &str = "library ieee; use ieee.std_logic_1164.all;\n\
    entity same is port (a, b : in std_logic; y : out std_logic); end;\n\
    architecture r of same is begin\n\
    y <= '1' when a = b else '0'; end;\n";

#[test]
fn tells_what_runs_meet(rt: HostRuntime) -> Result<(), Fail> {
    let alloc = rt.alloc();
    let clocks = "clk\n1\n0\n1\n0\n1\n0\n1\n";
    let range = "row 7: range error at x.vhd:4:51\n";
    let cycles =
        "row,n\n0,00\n1,01\n2,01\n3,10\n4,10\n5,11\n6,11\nrow 7: range error at x.vhd:4:51\n";
    for (top, file, stimulus, is_compared, status, printed) in [
        ("ct", COUNT, clocks, false, 7, cycles),
        ("ct", COUNT, clocks, true, 7, range),
        ("same", SAME, "b\nX\n", false, 0, "row,y\n0,1\n1,0\n"),
        (
            "same",
            SAME,
            "b\nX\n",
            true,
            10,
            "row 1: clash at x.vhd:4:15\n",
        ),
    ] {
        let mut shelf = shelf_with(alloc, "x.vhd", file.as_bytes(), &[])?;
        shelf.set("s.csv", stimulus.as_bytes())?;
        let mut out = MemSink::new(alloc, &[])?;
        let words = ["translate", top, "x.v", "x.csv", "x.vhd"];
        assert_eq!(rt; v2v(alloc, &words, &mut shelf, &mut out), 0, "at {top}");
        let found = if is_compared {
            let words = ["compare", top, "s.csv", "x.csv", "x.v", "x.vhd"];
            v2v(alloc, &words, &mut shelf, &mut out)
        } else {
            let words = ["replay", "vhdl", top, "s.csv", "x.vhd"];
            v2v(alloc, &words, &mut shelf, &mut out)
        };
        assert_eq!(rt; out.bytes(), printed.as_bytes(), "at {top}");
        assert_eq!(rt; found, status, "at {top}");
    }
    Ok(())
}

#[test]
fn makes_a_design(rt: HostRuntime) -> Result<(), Fail> {
    let alloc = rt.alloc();
    let mut shelf = MemShelf::new(alloc, &[])?;
    for (line, printed) in [
        (
            "gen 2 0 c.vhd s.csv c.v c.csv",
            "gen 2 0: 100 rows, q 11010100\n",
        ),
        ("compare chain s.csv c.csv c.v c.vhd", "equal 100\n"),
        (
            "gen 1 0 c.vhd s.csv c.v c.csv",
            "gen 1 0: 100 rows, q 01011000\n",
        ),
        ("compare chain s.csv c.csv c.v c.vhd", "equal 100\n"),
    ] {
        let words: Vec<&str> = line.split(' ').collect(alloc)?;
        let mut out = MemSink::new(alloc, &[])?;
        let status = v2v(alloc, words.as_slice(), &mut shelf, &mut out);
        assert_eq!(rt; out.bytes(), printed.as_bytes(), "at {line}");
        assert_eq!(rt; status, 0, "at {line}");
    }
    Ok(())
}

#[test]
fn tells_faults_of_runs(rt: HostRuntime) -> Result<(), Fail> {
    let alloc = rt.alloc();
    let none: &[u64] = &[];
    let first: &[u64] = &[0];
    let second: &[u64] = &[1];
    let fourth: &[u64] = &[3];
    for (line, fails, put_fails, status, printed) in [
        ("replay vhdl gate s.csv g.vhd", none, second, 4, "row,y\n"),
        (
            "replay vhdl gate s.csv g.vhd",
            second,
            none,
            3,
            "read fault: s.csv\n",
        ),
        ("compare gate s.csv g.csv g.v g.vhd", none, first, 4, ""),
        (
            "compare gate s.csv g.csv g.v g.vhd",
            fourth,
            none,
            3,
            "read fault: s.csv\n",
        ),
        (
            "gen 1 0 c.vhd c.csv c.v m.csv",
            fourth,
            none,
            4,
            "write fault: m.csv\n",
        ),
    ] {
        let words: Vec<&str> = line.split(' ').collect(alloc)?;
        let mut shelf = MemShelf::new(alloc, fails)?;
        let file = gate(alloc, "y <= a and not b;")?;
        shelf.set("g.vhd", file.as_bytes())?;
        shelf.set("g.v", TEXT.as_bytes())?;
        shelf.set("g.csv", MAP.as_bytes())?;
        shelf.set("s.csv", b"a,b\n1,0\nX,1\n")?;
        let mut out = MemSink::new(alloc, put_fails)?;
        let found = v2v(alloc, words.as_slice(), &mut shelf, &mut out);
        assert_eq!(rt; out.bytes(), printed.as_bytes(), "at {line}");
        assert_eq!(rt; found, status, "at {line}");
    }
    Ok(())
}
