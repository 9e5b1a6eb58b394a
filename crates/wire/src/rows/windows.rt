//! Windows. The replies have a body of 100,000 bytes or more.

pub const ROWS: &str = "\
a window of 0 lets no DATA through
  must RFC 9113, 6.9.1: \"MUST NOT send a flow-controlled frame .. that exceeds the space\"
  settings 0 00 000400000000
  await acks 2
  fetch 1
  quiet
  want most 1 0

a window of 1 lets no more than one byte through
  must RFC 9113, 6.9.1: \"MUST NOT send a flow-controlled frame .. that exceeds the space\"
  settings 0 00 000400000001
  await acks 2
  fetch 1
  await data 1 1
  quiet
  want most 1 1

a window of 16,385 lets no more through
  must RFC 9113, 6.9.1: \"MUST NOT send a flow-controlled frame .. that exceeds the space\"
  settings 0 00 000400004001
  await acks 2
  fetch 1
  await data 1 16385
  quiet
  want most 1 16385

the first windows are of 65,535 bytes
  must RFC 9113, 6.9.1: \"MUST NOT send .. that exceeds the space\"; 6.9.2: 65,535 octets
  fetch 1
  await data 1 65535
  quiet
  want most 1 65535

the connection's window isn't that of SETTINGS
  must RFC 9113, 6.9.1: \"MUST NOT send .. that exceeds the space\"; 6.9.2: SETTINGS can't alter it
  settings 0 00 00047fffffff
  await acks 2
  fetch 1
  await data 1 65535
  quiet
  want most 1 65535

the connection's window is shared by streams
  must RFC 9113, 6.9.1: \"MUST NOT send a flow-controlled frame .. that exceeds the space\"
  needs streams at least 2
  fetch 1
  fetch 3
  await total 65535
  quiet
  want most 0 65535

credit of one byte, three times
  must RFC 9113, 6.9.1: \"MUST NOT send a flow-controlled frame .. that exceeds the space\"
  settings 0 00 000400000000
  await acks 2
  fetch 1
  window 1 00 00000001
  await data 1 1
  window 1 00 00000001
  await data 1 2
  window 1 00 00000001
  await data 1 3
  quiet
  want most 1 3

credit of the connection of one byte
  must RFC 9113, 6.9.1: \"MUST NOT send a flow-controlled frame .. that exceeds the space\"
  settings 0 00 00047fffffff
  await acks 2
  fetch 1
  await data 1 65535
  window 0 00 00000001
  await data 1 65536
  quiet
  want most 1 65536

credit of the stream alone doesn't open the connection's window
  must RFC 9113, 6.9.1: \"MUST NOT send a flow-controlled frame .. that exceeds the space\"
  fetch 1
  await data 1 65535
  window 1 00 00000064
  quiet
  want most 1 65535

credit of the connection alone doesn't open the stream's window
  must RFC 9113, 6.9.1: \"MUST NOT send a flow-controlled frame .. that exceeds the space\"
  settings 0 00 000400000005
  await acks 2
  fetch 1
  window 0 00 00001000
  await data 1 5
  quiet
  want most 1 5

credit of both lets all through
  must RFC 9113, 6.9: frames but DATA, so WINDOW_UPDATE, \"MUST be accepted and processed\"
  fetch 1
  window 0 00 00100000
  window 1 00 00100000
  want answered 1

credit before any DATA
  must RFC 9113, 6.9: frames but DATA, so WINDOW_UPDATE, \"MUST be accepted and processed\"
  window 0 00 00100000
  settings 0 00 000400100000
  await acks 2
  fetch 1
  want answered 1

SETTINGS raise the window of an open stream
  must RFC 9113, 6.9.2: \"MUST adjust the size of all stream flow-control windows\"
  settings 0 00 000400000000
  await acks 2
  fetch 1
  sync
  window 0 00 00100000
  settings 0 00 000400100000
  want answered 1

SETTINGS take a window below zero
  must RFC 9113, 6.9.2: \"MUST track the negative flow-control window and MUST NOT send\"
  settings 0 00 000400000064
  await acks 2
  fetch 1
  await data 1 100
  settings 0 00 000400000032
  await acks 3
  window 1 00 00000032
  quiet
  want most 1 100

a window that was below zero opens by no more than one byte
  must RFC 9113, 6.9.2: \"MUST track the negative flow-control window and MUST NOT send\"
  settings 0 00 000400000064
  await acks 2
  fetch 1
  await data 1 100
  settings 0 00 000400000032
  await acks 3
  window 1 00 00000033
  await data 1 101
  quiet
  want most 1 101

SETTINGS that raise a window from below zero
  must RFC 9113, 6.9.2: \"MUST track the negative flow-control window and MUST NOT send\"
  settings 0 00 000400000064
  await acks 2
  fetch 1
  await data 1 100
  settings 0 00 000400000000
  await acks 3
  settings 0 00 000400000067
  await data 1 103
  quiet
  want most 1 103

two windows in one SETTINGS
  must RFC 9113, 6.5.3: \"MUST be processed in the order they appear\"
  settings 0 00 000400000003 000400000000
  await acks 2
  fetch 1
  quiet
  want most 1 0

a stream without window doesn't hold up another
  should RFC 9113, 6.9.1: \"MUST NOT send .. that exceeds the space\" (of stream 1 alone)
  needs streams at least 2
  settings 0 00 000400000000
  await acks 2
  fetch 1
  fetch 3
  window 0 00 00100000
  window 3 00 00100000
  await answered 3
  want answered 3 and most 1 0

response headers need no window
  should RFC 9113, 5.2.1: \"only DATA frames are subject to flow control\"
  settings 0 00 000400000000
  await acks 2
  headers 1 04 call:Nothing
  data 1 01 0000000000
  want http 1

DATA of no more than 16,384 bytes
  must RFC 9113, 4.1: \"Values greater than 2^14 (16,384) MUST NOT be sent\"
  fetch 1
  window 0 00 00100000
  window 1 00 00100000
  await answered 1
  want largest 16384

an increment of 0 on a stream
  must RFC 9113, 6.9: \"increment of 0 as a stream error .. of type PROTOCOL_ERROR\": MUST
  control live 1
  headers 1 04 call:FullDuplexCall
  quiet
  !window 1 00 00000000
  want stream 1 1 2 3

an increment of 0 on the connection
  must RFC 9113, 6.9: \"MUST be treated as a connection error\"
  window 0 00 00000000
  want connection 1 2 3

an increment of nothing but the reserved bit
  must RFC 9113, 6.9: \"MUST be treated as a connection error\"; 4.1: the reserved bit
  window 0 00 80000000
  want connection 1 2 3

the reserved bit of an increment
  must RFC 9113, 6.9: \"MUST be accepted and processed\"; 4.1: the reserved bit \"MUST be ignored\"
  control answered 1
  settings 0 00 000400000000
  await acks 2
  fetch 1
  window 0 00 00100000
  ~window 1 00 00100000
  !window 1 00 80100000
  want answered 1

the greatest window of the connection
  must RFC 9113, 6.9: frames but DATA, so WINDOW_UPDATE, \"MUST be accepted and processed\"
  control answered 1
  !window 0 00 7fff0000
  request 1
  want answered 1

the connection's window over 2^31 - 1 by one
  must RFC 9113, 6.9.1: \"MUST terminate either the stream or the connection\"
  window 0 00 7fff0001
  want connection 1 2 3

the connection's window over 2^31 - 1 by two steps
  must RFC 9113, 6.9.1: \"MUST terminate either the stream or the connection\"
  window 0 00 7fff0000
  window 0 00 00000001
  want connection 1 2 3

the greatest window of a stream
  must RFC 9113, 6.9: frames but DATA, so WINDOW_UPDATE, \"MUST be accepted and processed\"
  control answered 1
  headers 1 04 call:EmptyCall
  !window 1 00 7fff0000
  data 1 01 0000000000
  want answered 1

a stream's window over 2^31 - 1 by one
  must RFC 9113, 6.9.1: \"MUST terminate either the stream or the connection\"
  control open 1
  headers 1 04 call:FullDuplexCall
  quiet
  !window 1 00 7fff0001
  want stream 1 1 2 3
  want answered 1

a stream's window over 2^31 - 1 leaves the others
  must RFC 9113, 6.9: frames but DATA \"MUST be accepted and processed\"; 5.4.2: of one stream
  needs streams at least 2
  control answered 3
  headers 1 04 call:FullDuplexCall
  !window 1 00 7fffffff
  !await stream 1 1 2 3
  request 3
  want answered 3
  want connection 1 2 3

SETTINGS that take a stream's window over 2^31 - 1
  must RFC 9113, 6.9.2: \"MUST treat .. as a connection error .. of type FLOW_CONTROL_ERROR\"
  control open 1
  headers 1 04 call:FullDuplexCall
  window 1 00 7fff0000
  quiet
  !settings 0 00 000400010000
  want connection 1 2 3

a window of 2^31 in SETTINGS
  must RFC 9113, 6.5.2: \"MUST be treated as a connection error .. of type FLOW_CONTROL_ERROR\"
  settings 0 00 000480000000
  want connection 1 2 3

a window of 2^32 - 1 in SETTINGS
  must RFC 9113, 6.5.2: \"MUST be treated as a connection error .. of type FLOW_CONTROL_ERROR\"
  settings 0 00 0004ffffffff
  want connection 1 2 3

credit on a stream that was reset
  must RFC 9113, 6.4: \"MUST NOT send additional frames for that stream, except for PRIORITY\"
  settings 0 00 000400000000
  await acks 2
  fetch 1
  reset 1 00 00000008
  window 1 00 00000010
  fetch 3
  window 3 00 00000004
  await data 3 4
  quiet
  want most 1 0 and most 3 4

the server gives credit of a stream and of the connection
  should RFC 9113, 6.9.1: \"sends a WINDOW_UPDATE frame as it consumes data\" (no MUST)
  headers 1 04 call:StreamingInputCall
  data 1 00 00 00030d48 0ac49a0c12c09a0c
  upload 1 200000
  data 1 01
  want answered 1

the server gives credit of padding
  should RFC 9113, 6.9.1: \"sends a WINDOW_UPDATE frame as it consumes data\" (no MUST)
  headers 1 04 call:StreamingInputCall
  data 1 00 00 0000025e 0adb0412d804
  padded 1 600
  data 1 01
  want answered 1
  want connection 1 2 11

the server gives credit of DATA of a call that it doesn't take
  should RFC 9113, 6.9.1: \"sends a WINDOW_UPDATE frame as it consumes data\" (no MUST)
  headers 1 04 call:StreamingInputCall
  reset 1 00 00000008
  data 1 00 00*16384
  data 1 00 00*16384
  data 1 00 00*16384
  headers 3 04 call:StreamingInputCall
  data 3 00 00 00030d48 0ac49a0c12c09a0c
  upload 3 200000
  data 3 01
  want answered 3
  want connection 1 2 5
";
