//! The built-in configuration.

/// The INTERVAL of both programs, in milliseconds.
pub const INTERVAL: u64 = 10;

/// The variable that they count in.
pub const COUNT: &str = "N";

/// Two resources, each with one program that counts every 10 ms, on one RETAIN variable.
pub const TEXT: &str = "
PROGRAM Count
  VAR_EXTERNAL n : DINT; END_VAR
  n := n + 1;
END_PROGRAM
CONFIGURATION First
  VAR_GLOBAL RETAIN n : DINT; END_VAR
  RESOURCE A ON CPU
    TASK T (INTERVAL := T#10ms, PRIORITY := 0);
    PROGRAM P WITH T : Count;
  END_RESOURCE
  RESOURCE B ON CPU
    TASK T (INTERVAL := T#10ms, PRIORITY := 0);
    PROGRAM P WITH T : Count;
  END_RESOURCE
END_CONFIGURATION
";
