//! The lengths of frames.

pub const ROWS: &str = "\
DATA of 16,384 bytes
  must RFC 9113, 4.2: \"MUST be capable of receiving .. frames up to 2^14 octets\"
  control answered 1
  headers 1 04 call:StreamingInputCall
  ~data 1 01
  !data 1 01 00 00003ffb 0a f87f 12 f57f 00*16373
  want answered 1

HEADERS of 16,384 bytes
  must RFC 9113, 4.2: \"MUST be capable of receiving .. frames up to 2^14 octets\"
  needs table at least 4096
  control answered 1
  headers 1 04 call:EmptyCall !00 !str:x-pad !7fee7d !61*16237
  data 1 01 0000000000
  want answered 1
  want failed 1
  want connection 1 2 9 11

DATA over SETTINGS_MAX_FRAME_SIZE
  must RFC 9113, 4.2: \"MUST send an error code of FRAME_SIZE_ERROR\"
  needs frame at most 8388607
  control live 1
  headers 1 04 call:UnaryCall
  quiet
  !data 1 01 00*frame+1
  want stream 1 1 2 3 6

HEADERS over SETTINGS_MAX_FRAME_SIZE
  must RFC 9113, 4.2: \"MUST be treated as a connection error\": it carries a field block
  needs frame at most 8388607
  headers 1 05 pad:frame+1
  want connection 1 2 6 11

CONTINUATION over SETTINGS_MAX_FRAME_SIZE
  must RFC 9113, 4.2: \"MUST be treated as a connection error\": it carries a field block
  needs frame at most 8388607
  headers 1 01 call:EmptyCall
  continuation 1 04 pad:frame+1
  want connection 1 2 6 9 11

SETTINGS over SETTINGS_MAX_FRAME_SIZE
  must RFC 9113, 4.2: \"a SETTINGS frame\": \"MUST be treated as a connection error\"
  needs frame at most 8388607
  settings 0 00 000300000064*frame/6+1
  want connection 1 2 6 11

PING over SETTINGS_MAX_FRAME_SIZE
  must RFC 9113, 6.7: \"MUST be treated as a connection error .. of type FRAME_SIZE_ERROR\"
  needs frame at most 8388607
  ping 0 00 00*frame+1
  want connection 1 2 6

an unknown type over SETTINGS_MAX_FRAME_SIZE
  should RFC 9113, 4.2: \"MUST .. FRAME_SIZE_ERROR\"; 4.1: \"MUST ignore\" unknown types
  needs frame at most 8388607
  type22 0 00 00*frame+1
  sync
  want connection 1 2 6
  want ignored

an unknown type of 16,384 bytes
  must RFC 9113, 4.1: \"MUST ignore and discard frames of unknown types\"
  control ignored
  !type22 0 00 00*16384
  sync
  want ignored

PRIORITY of four bytes
  must RFC 9113, 6.3: \"MUST be treated as a stream error .. of type FRAME_SIZE_ERROR\"
  control live 1
  headers 1 04 call:FullDuplexCall
  quiet
  !priority 1 00 00000000
  want stream 1 1 2 6

PRIORITY of six bytes
  must RFC 9113, 6.3: \"MUST be treated as a stream error .. of type FRAME_SIZE_ERROR\"
  control live 1
  headers 1 04 call:FullDuplexCall
  quiet
  !priority 1 00 000000000000
  want stream 1 1 2 6

RST_STREAM of three bytes
  must RFC 9113, 6.4: \"MUST be treated as a connection error .. of type FRAME_SIZE_ERROR\"
  headers 1 04 call:FullDuplexCall
  reset 1 00 000000
  want connection 1 2 6

RST_STREAM of five bytes
  must RFC 9113, 6.4: \"MUST be treated as a connection error .. of type FRAME_SIZE_ERROR\"
  headers 1 04 call:FullDuplexCall
  reset 1 00 0000000008
  want connection 1 2 6

SETTINGS of three bytes
  must RFC 9113, 6.5: \"MUST be treated as a connection error .. of type FRAME_SIZE_ERROR\"
  settings 0 00 000300
  want connection 1 2 6

SETTINGS of seven bytes
  must RFC 9113, 6.5: \"MUST be treated as a connection error .. of type FRAME_SIZE_ERROR\"
  settings 0 00 00030000006400
  want connection 1 2 6

SETTINGS with ACK and a parameter
  must RFC 9113, 6.5: \"MUST be treated as a connection error .. of type FRAME_SIZE_ERROR\"
  settings 0 01 000300000064
  want connection 1 2 6

PING of seven bytes
  must RFC 9113, 6.7: \"MUST be treated as a connection error .. of type FRAME_SIZE_ERROR\"
  ping 0 00 01020304050607
  want connection 1 2 6

PING of nine bytes
  must RFC 9113, 6.7: \"MUST be treated as a connection error .. of type FRAME_SIZE_ERROR\"
  ping 0 00 010203040506070809
  want connection 1 2 6

PING of no bytes
  must RFC 9113, 6.7: \"MUST be treated as a connection error .. of type FRAME_SIZE_ERROR\"
  ping 0 00
  want connection 1 2 6

GOAWAY of seven bytes
  must RFC 9113, 4.2: \"too small .. MUST be treated as a connection error\"
  goaway 0 00 00000000000000
  want connection 1 2 6

WINDOW_UPDATE of three bytes
  must RFC 9113, 6.9: \"MUST be treated as a connection error .. of type FRAME_SIZE_ERROR\"
  window 0 00 000001
  want connection 1 2 6

WINDOW_UPDATE of five bytes
  must RFC 9113, 6.9: \"MUST be treated as a connection error .. of type FRAME_SIZE_ERROR\"
  window 0 00 0000000001
  want connection 1 2 6

WINDOW_UPDATE of three bytes on a stream
  must RFC 9113, 6.9: \"MUST be treated as a connection error .. of type FRAME_SIZE_ERROR\"
  headers 1 04 call:FullDuplexCall
  window 1 00 000001
  want connection 1 2 6

a frame whose payload comes byte by byte
  must RFC 9113, 6.7: \"MUST send a PING frame with the ACK flag set in response\"
  drip 000008 06 00 00000000 0102030405060708
  want ping 0102030405060708
";
