//! Frames in each state of a stream.

pub const ROWS: &str = "\
DATA on an idle stream
  must RFC 9113, 5.1 (idle): \"MUST be treated as a connection error .. of type PROTOCOL_ERROR\"
  data 1 01 0000000000
  want stream 1 1 2 5

RST_STREAM on an idle stream
  must RFC 9113, 6.4: \"MUST treat this as a connection error .. of type PROTOCOL_ERROR\"
  reset 1 00 00000008
  want connection 1 2

WINDOW_UPDATE on an idle stream
  must RFC 9113, 5.1 (idle): \"MUST be treated as a connection error .. of type PROTOCOL_ERROR\"
  window 1 00 00000001
  want connection 1 2

PRIORITY on an idle stream
  must RFC 9113, 6.9: frames but DATA \"MUST be accepted and processed\"; 6.3: in any state
  priority 7 00 0000000010
  sync
  want ignored

DATA on an idle stream of the server
  must RFC 9113, 5.1 (idle): \"MUST be treated as a connection error .. of type PROTOCOL_ERROR\"
  data 2 01 0000000000
  want stream 2 1 2 5

RST_STREAM on an idle stream of the server
  must RFC 9113, 6.4: \"MUST treat this as a connection error .. of type PROTOCOL_ERROR\"
  reset 2 00 00000008
  want connection 1 2

WINDOW_UPDATE on an idle stream of the server
  must RFC 9113, 5.1 (idle): \"MUST be treated as a connection error .. of type PROTOCOL_ERROR\"
  window 2 00 00000001
  want connection 1 2

DATA on a stream that was left out
  should RFC 9113, 6.1: \"MUST respond with a stream error\"; 5.1 (closed): it can be discarded
  headers 3 04 call:FullDuplexCall
  data 1 01 0000000000
  sync
  want stream 1 1 2 5
  want ignored

WINDOW_UPDATE on a stream that was left out
  should RFC 9113, 5.1 (closed): \"MAY treat .. as a connection error\"; it can be discarded
  headers 3 04 call:FullDuplexCall
  window 1 00 00000001
  sync
  want stream 1 1 2 5
  want ignored

PRIORITY on an open stream
  must RFC 9113, 6.9: frames but DATA \"MUST be accepted and processed\"; 6.3: in any state
  control answered 1
  headers 1 04 call:EmptyCall
  !priority 1 00 0000000010
  data 1 01 0000000000
  want answered 1

WINDOW_UPDATE on an open stream
  must RFC 9113, 6.9: frames but DATA \"MUST be accepted and processed\"
  control answered 1
  headers 1 04 call:EmptyCall
  !window 1 00 00000010
  data 1 01 0000000000
  want answered 1

RST_STREAM on an open stream
  must RFC 9113, 5.4.2: \"MUST NOT send a RST_STREAM in response to a RST_STREAM frame\"
  control ignored
  headers 1 04 call:FullDuplexCall
  sync
  !reset 1 00 00000008
  sync
  want ignored

RST_STREAM on an open stream leaves the others
  must RFC 9113, 6.9: frames but DATA \"MUST be accepted and processed\"; 5.4.2: of one stream
  needs streams at least 2
  control answered 3
  headers 1 04 call:FullDuplexCall
  headers 3 04 call:EmptyCall
  !reset 1 00 00000008
  data 3 01 0000000000
  want answered 3

RST_STREAM with an error that isn't known
  must RFC 9113, 7: unknown codes \"MUST NOT trigger any special behavior\"
  control answered 3
  headers 1 04 call:FullDuplexCall
  ~reset 1 00 00000008
  !reset 1 00 ffffffff
  request 3
  want answered 3

a second HEADERS without END_STREAM
  must RFC 9113, 8.1: \"MUST treat the corresponding request .. as malformed\"
  control answered 1
  headers 1 04 call:FullDuplexCall
  sync
  !headers 1 04 x=a
  ~data 1 01
  want stream 1 1 2
  want rejected 1

trailers
  should RFC 9113, 8.1: the format of a request; gRPC's has no trailers
  headers 1 04 call:StreamingInputCall
  data 1 00 0000000000
  headers 1 05 x=a
  want answered 1
  want failed 1

trailers without a field
  should RFC 9113, 8.1: the format of a request; gRPC's has no trailers
  headers 1 04 call:StreamingInputCall
  data 1 00 0000000000
  headers 1 05
  want answered 1
  want failed 1

DATA on a half-closed stream
  must RFC 9113, 5.1 (half-closed, remote): \"MUST respond with a stream error\"
  control open 1
  settings 0 00 000400000000
  await acks 2
  fetch 1
  quiet
  !data 1 00 00
  want stream 1 1 2 5

DATA with END_STREAM on a half-closed stream
  must RFC 9113, 5.1 (half-closed, remote): \"MUST respond with a stream error\"
  control open 1
  settings 0 00 000400000000
  await acks 2
  fetch 1
  quiet
  !data 1 01
  want stream 1 1 2 5

HEADERS on a half-closed stream
  must RFC 9113, 5.1 (half-closed, remote): \"MUST respond with a stream error\"
  control open 1
  settings 0 00 000400000000
  await acks 2
  fetch 1
  quiet
  !headers 1 05 x=a
  want stream 1 1 2 5

CONTINUATION on a half-closed stream
  must RFC 9113, 6.10: \"MUST respond with a connection error .. of type PROTOCOL_ERROR\"
  settings 0 00 000400000000
  await acks 2
  fetch 1
  sync
  continuation 1 04 x=a
  want stream 1 1 2 5

WINDOW_UPDATE on a half-closed stream
  must RFC 9113, 6.9: \"A receiver MUST NOT treat this as an error\"
  control open 1
  settings 0 00 000400000000
  await acks 2
  fetch 1
  quiet
  !window 1 00 00000007
  sync
  want ignored and most 1 7

PRIORITY on a half-closed stream
  must RFC 9113, 6.9: frames but DATA \"MUST be accepted and processed\"; 6.3: in any state
  control ignored
  settings 0 00 000400000000
  await acks 2
  fetch 1
  !priority 1 00 0000000010
  sync
  want ignored

RST_STREAM on a half-closed stream
  must RFC 9113, 5.4.2: \"MUST NOT send a RST_STREAM in response to a RST_STREAM frame\"
  control ignored
  settings 0 00 000400000000
  await acks 2
  fetch 1
  !reset 1 00 00000008
  sync
  want ignored

nothing comes on a stream after RST_STREAM
  must RFC 9113, 6.4: \"MUST NOT send additional frames for that stream, except for PRIORITY\"
  settings 0 00 000400000000
  await acks 2
  fetch 1
  sync
  reset 1 00 00000008
  window 1 00 00000010
  quiet
  want most 1 0

DATA on a closed stream
  should RFC 9113, 6.1: \"MUST respond with a stream error\"; 5.1 (closed): it can be discarded
  request 1
  await answered 1
  data 1 01 0000000000
  sync
  want stream 1 1 2 5
  want ignored

HEADERS on a closed stream
  must RFC 9113, 5.1 (closed): \"MUST NOT send frames other than PRIORITY on a closed stream\"
  request 1
  await answered 1
  headers 1 05 call:EmptyCall
  quiet
  want orderly

CONTINUATION on a closed stream
  must RFC 9113, 6.10: \"MUST respond with a connection error .. of type PROTOCOL_ERROR\"
  request 1
  await answered 1
  continuation 1 04 x=a
  want connection 1 2 5

WINDOW_UPDATE on a closed stream
  must RFC 9113, 6.9: \"A receiver MUST NOT treat this as an error\"
  control answered 1 and ignored
  request 1
  await answered 1
  !window 1 00 00000001
  sync
  want ignored

RST_STREAM on a closed stream
  must RFC 9113, 5.4.2: \"MUST NOT send a RST_STREAM in response to a RST_STREAM frame\"
  control answered 1 and ignored
  request 1
  await answered 1
  !reset 1 00 00000008
  sync
  want ignored
  want connection 1 2 5

PRIORITY on a closed stream
  must RFC 9113, 6.9: frames but DATA \"MUST be accepted and processed\"; 6.3: in any state
  control answered 1 and ignored
  request 1
  await answered 1
  !priority 1 00 0000000010
  sync
  want ignored

DATA after the client's RST_STREAM
  should RFC 9113, 6.1: \"MUST respond with a stream error\"; 5.1 (closed): it can be discarded
  headers 1 04 call:FullDuplexCall
  reset 1 00 00000008
  data 1 01 0000000000
  sync
  want stream 1 1 2 5
  want ignored

HEADERS after the client's RST_STREAM
  should RFC 9113, 5.1 (closed): \"MAY treat .. as a connection error\"; it can be discarded
  headers 1 04 call:FullDuplexCall
  reset 1 00 00000008
  headers 1 05 x=a
  sync
  want stream 1 1 2 5
  want ignored

WINDOW_UPDATE after the client's RST_STREAM
  should RFC 9113, 5.1 (closed): \"MAY treat .. as a connection error\"; it can be discarded
  headers 1 04 call:FullDuplexCall
  reset 1 00 00000008
  window 1 00 00000001
  sync
  want stream 1 1 2 5
  want ignored

a second RST_STREAM
  must RFC 9113, 5.4.2: \"MUST NOT send a RST_STREAM in response to a RST_STREAM frame\"
  control ignored
  headers 1 04 call:FullDuplexCall
  reset 1 00 00000008
  !reset 1 00 00000008
  sync
  want connection 1 2 5
  want ignored

PRIORITY after the client's RST_STREAM
  must RFC 9113, 6.9: frames but DATA \"MUST be accepted and processed\"; 6.3: in any state
  control ignored
  headers 1 04 call:FullDuplexCall
  reset 1 00 00000008
  !priority 1 00 0000000010
  sync
  want ignored

DATA after the server's RST_STREAM
  must RFC 9113, 5.1 (closed): \"MUST minimally process and then discard any frames it receives\"
  needs streams at least 2
  control answered 3
  headers 1 04 call:EmptyCall !X=a
  ~data 1 01 0000000000
  !await stream 1 1 2
  !data 1 01 0000000000
  request 3
  want answered 3
  want connection 1 2

nothing comes on a stream after the server's own RST_STREAM
  must RFC 9113, 5.1 (closed): \"MUST NOT send frames other than PRIORITY on a closed stream\"
  headers 1 04 call:FullDuplexCall
  sync
  headers 1 04 x=a
  await stream 1 1 2
  quiet
  want orderly
  want connection 1 2

DATA after the server's own end
  should RFC 9113, 5.1 (half-closed, local): \"can receive any type of frame\"
  control ignored
  headers 1 04 call:Nothing
  await answered 1
  !data 1 01 0000000000
  sync
  want ignored
  want reset 1

more streams than SETTINGS allow
  must RFC 9113, 5.1.2: \"MUST treat this as a stream error .. PROTOCOL_ERROR or REFUSED_STREAM\"
  needs streams at most 1000
  crowd FullDuplexCall
  sync
  want crowded 1 2 7
  want connection 1 2 7 11
  want answered 1

the 65th live call
  ours it is refused with REFUSED_STREAM, and the others live on
  many 65 FullDuplexCall
  sync
  data 1 01
  want reset 129 7 and status 1 0
";
