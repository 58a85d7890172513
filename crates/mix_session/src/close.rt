//! The codes with which a message closes the connection, as obs-websocket 5 numbers them.

/// The message is no text of a JSON object.
pub const NOT_DECODED: u16 = 4002;
/// A field that is needed isn't there.
pub const MISSING_FIELD: u16 = 4003;
/// A field is of another type.
pub const WRONG_TYPE: u16 = 4004;
/// A field's value is outside its range.
pub const WRONG_VALUE: u16 = 4005;
/// No client sends messages of this op.
pub const UNKNOWN_OP: u16 = 4006;
/// The connection has to identify itself first.
pub const NOT_IDENTIFIED: u16 = 4007;
/// The connection has identified itself before.
pub const ALREADY_IDENTIFIED: u16 = 4008;
/// There is a secret, and the connection doesn't show that it knows it.
pub const LOGIN_FAILED: u16 = 4009;
/// The connection asks for another version of the protocol.
pub const UNSUPPORTED_VERSION: u16 = 4010;
/// A batch asks to be run in parallel.
pub const UNSUPPORTED_FEATURE: u16 = 4012;
