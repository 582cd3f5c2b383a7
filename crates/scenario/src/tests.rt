use crate::*;

#[test]
fn rows_of_bytes_and_addresses_are_read(rt: HostRuntime) {
    let heap = rt.alloc();
    let bytes = match Statement::parse(heap, "counter 01 02ff # three bytes") {
        Ok(Statement::Counter(bytes)) => Some(bytes),
        Ok(_other) => None,
        Err(_fault) => None,
    };
    let bytes = bytes.expect(&rt, "a row of bytes");
    assert_eq!(rt; bytes.as_slice(), [1, 2, 0xFF].as_slice());
    let address = match Statement::parse(heap, "trace 10.130.065.44") {
        Ok(Statement::Trace(address)) => Some(address),
        Ok(_other) => None,
        Err(_fault) => None,
    };
    assert_eq!(rt; address, Some(0x0A82_412C));
}

#[test]
fn what_is_no_statement_is_refused(rt: HostRuntime) {
    let heap = rt.alloc();
    for line in [
        "counter 012",
        "counter 0g",
        "trace 10.1.2",
        "trace 10.1.2.256",
        "run",
    ] {
        assert!(rt; Statement::parse(heap, line).is_err());
    }
}
