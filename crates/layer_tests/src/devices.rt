use std::alloc::Global;
use std::process::Abort;
use std::test::Fail;
use tech_rules::{Device, TechFault, read_tech};

/// Three layers.
const LAYERS: &str = r#"
[[layer]]
name = "act"
gds = [1, 0]

[[layer]]
name = "gate"
gds = [2, 0]

[[layer]]
name = "imp"
gds = [3, 0]
"#;

const DEVICE: &str = r#"
[[device]]
model = "n"
gate = "gate"
active = "act"
by = "imp"
"#;

/// The devices of a technology of the layers and this text, or the fault with its key.
fn answer(alloc: Global, text: &str) -> Result<String, Fail> {
    // The text stands first, since it may be a key of the document.
    let text = format!(in alloc; "outline = \"act\"\n{text}{LAYERS}")?;
    match read_tech(alloc, text.as_bytes()) {
        Ok(tech) => devices_text(alloc, tech.devices.as_slice()),
        Err(fault) => fault_text(alloc, &fault),
    }
}

/// Devices in words.
fn devices_text(alloc: Global, devices: &[Device]) -> Result<String, Fail> {
    let mut line = String::new(alloc);
    for device in devices {
        write!(
            line,
            "{} {} {} {};",
            device.model, device.gate, device.active, device.by
        )?;
    }
    Ok(line)
}

fn fault_text(alloc: Global, fault: &TechFault) -> Result<String, Fail> {
    let text = match fault {
        TechFault::Missing { key } => format!(in alloc; "Missing {key}"),
        TechFault::WrongKind { key } => format!(in alloc; "WrongKind {key}"),
        TechFault::OutOfRange { key } => format!(in alloc; "OutOfRange {key}"),
        TechFault::UnknownLayer { key } => format!(in alloc; "UnknownLayer {key}"),
        _ => format!(in alloc; "another fault"),
    };
    Ok(text?)
}

fn check(rt: &impl Abort, alloc: Global, text: &str, wanted: &str) -> Result<(), Fail> {
    let given = answer(alloc, text)?;
    assert_eq!(rt; given.as_str(), wanted, "of {text}");
    Ok(())
}

/// One device with the first `old` in it replaced.
fn with(alloc: Global, old: &str, new: &str) -> Result<String, Fail> {
    let Some((before, after)) = DEVICE.split_once(old) else {
        return Err("nothing to replace".into());
    };
    Ok(format!(in alloc; "{before}{new}{after}")?)
}

#[test]
fn devices_that_are_read(rt: HostRuntime) -> Result<(), Fail> {
    let alloc = rt.alloc();
    check(&rt, alloc, "", "")?;
    check(&rt, alloc, DEVICE, "n 1 0 2;")?;
    let eight = format!(in alloc;
        "{DEVICE}{DEVICE}{DEVICE}{DEVICE}{DEVICE}{DEVICE}{DEVICE}{DEVICE}"
    )?;
    check(
        &rt,
        alloc,
        eight.as_str(),
        "n 1 0 2;n 1 0 2;n 1 0 2;n 1 0 2;n 1 0 2;n 1 0 2;n 1 0 2;n 1 0 2;",
    )?;
    let nine = format!(in alloc; "{eight}{DEVICE}")?;
    check(&rt, alloc, nine.as_str(), "OutOfRange device")
}

/// Of each key: missing, of another kind, not allowed, an unknown layer. Keys are looked at in their order.
#[test]
fn devices_that_are_refused(rt: HostRuntime) -> Result<(), Fail> {
    let alloc = rt.alloc();
    check(&rt, alloc, "device = 1\n", "WrongKind device")?;
    check(&rt, alloc, "device = [1]\n", "WrongKind device")?;
    check(&rt, alloc, "device = []\n", "OutOfRange device")?;
    let cases = [
        ("model = \"n\"\n", "", "Missing device.0.model"),
        ("\"n\"", "1", "WrongKind device.0.model"),
        ("\"n\"", "\"n p\"", "OutOfRange device.0.model"),
        ("gate = \"gate\"\n", "", "Missing device.0.gate"),
        ("\"gate\"", "[]", "WrongKind device.0.gate"),
        ("\"gate\"", "\"poly\"", "UnknownLayer device.0.gate"),
        ("active = \"act\"\n", "", "Missing device.0.active"),
        ("\"act\"", "\"diff\"", "UnknownLayer device.0.active"),
        // Whether the gate is the active layer is asked where the third layer stands.
        ("\"act\"", "\"gate\"", "OutOfRange device.0.by"),
        ("by = \"imp\"", "", "Missing device.0.by"),
        ("\"imp\"", "true", "WrongKind device.0.by"),
        ("\"imp\"", "\"gate\"", "OutOfRange device.0.by"),
        ("\"imp\"", "\"act\"", "OutOfRange device.0.by"),
        ("\"imp\"", "\"select\"", "UnknownLayer device.0.by"),
    ];
    for (old, new, wanted) in cases {
        let text = with(alloc, old, new)?;
        check(&rt, alloc, text.as_str(), wanted)?;
    }
    let later = format!(in alloc; "{DEVICE}[[device]]\nmodel = \"n\"\n")?;
    check(&rt, alloc, later.as_str(), "Missing device.1.gate")
}
