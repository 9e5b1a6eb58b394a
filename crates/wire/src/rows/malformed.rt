//! Malformed requests. A stream error answers them; a server may send a response before (RFC 9113,
//! section 8.1.1), which has to tell of an error then. Each is a call that is answered without its
//! one fault.

pub const ROWS: &str = "\
a name with an upper-case letter
  must RFC 9113, 8.2.1: \"minimal validation\": \"MUST be treated as malformed\"
  control answered 1
  headers 1 04 call:EmptyCall !X-a=b
  data 1 01 0000000000
  want stream 1 1 2
  want rejected 1

a name with a blank
  must RFC 9113, 8.2.1: \"minimal validation\": \"MUST be treated as malformed\"
  control answered 1
  headers 1 04 call:EmptyCall !a%20b=c
  data 1 01 0000000000
  want stream 1 1 2
  want rejected 1

a name with a colon inside
  must RFC 9113, 8.2.1: \"minimal validation\": \"MUST be treated as malformed\"
  control answered 1
  headers 1 04 call:EmptyCall !a:b=c
  data 1 01 0000000000
  want stream 1 1 2
  want rejected 1

a name with the byte 7f
  must RFC 9113, 8.2.1: \"minimal validation\": \"MUST be treated as malformed\"
  control answered 1
  headers 1 04 call:EmptyCall !a%7fb=c
  data 1 01 0000000000
  want stream 1 1 2
  want rejected 1

a name with the byte e4
  must RFC 9113, 8.2.1: \"minimal validation\": \"MUST be treated as malformed\"
  control answered 1
  headers 1 04 call:EmptyCall !a%e4b=c
  data 1 01 0000000000
  want stream 1 1 2
  want rejected 1

a name of no bytes
  should RFC 9113, 8.2.1: \"SHOULD validate field names\"; RFC 9110, 5.1: a name is a token
  control answered 1
  headers 1 04 call:EmptyCall !00 !00 !str:a
  data 1 01 0000000000
  want stream 1 1 2
  want rejected 1

a value with the byte 00
  must RFC 9113, 8.2.1: \"minimal validation\": \"MUST be treated as malformed\"
  control answered 1
  headers 1 04 call:EmptyCall !x=a%00b
  data 1 01 0000000000
  want stream 1 1 2
  want rejected 1

a value with a line feed
  must RFC 9113, 8.2.1: \"minimal validation\": \"MUST be treated as malformed\"
  control answered 1
  headers 1 04 call:EmptyCall !x=a%0ab
  data 1 01 0000000000
  want stream 1 1 2
  want rejected 1

a value with a carriage return
  must RFC 9113, 8.2.1: \"minimal validation\": \"MUST be treated as malformed\"
  control answered 1
  headers 1 04 call:EmptyCall !x=a%0db
  data 1 01 0000000000
  want stream 1 1 2
  want rejected 1

a value that begins with a blank
  should RFC 9113, 8.2.1: \"MUST be treated as malformed\"; gRPC: \"it may be stripped\"
  control answered 1
  headers 1 04 call:EmptyCall !x=%20a
  data 1 01 0000000000
  want stream 1 1 2
  want rejected 1

a value that ends with a tab
  should RFC 9113, 8.2.1: \"MUST be treated as malformed\"; gRPC: \"it may be stripped\"
  control answered 1
  headers 1 04 call:EmptyCall !x=a%09
  data 1 01 0000000000
  want stream 1 1 2
  want rejected 1

connection
  must RFC 9113, 8.2.2: \"MUST be treated as malformed\"
  control answered 1
  headers 1 04 call:EmptyCall !connection=close
  data 1 01 0000000000
  want stream 1 1 2
  want rejected 1

proxy-connection
  must RFC 9113, 8.2.2: \"MUST be treated as malformed\"
  control answered 1
  headers 1 04 call:EmptyCall !proxy-connection=keep-alive
  data 1 01 0000000000
  want stream 1 1 2
  want rejected 1

keep-alive
  must RFC 9113, 8.2.2: \"MUST be treated as malformed\"
  control answered 1
  headers 1 04 call:EmptyCall !keep-alive=timeout%3d5
  data 1 01 0000000000
  want stream 1 1 2
  want rejected 1

transfer-encoding
  must RFC 9113, 8.2.2: \"MUST be treated as malformed\"
  control answered 1
  headers 1 04 call:EmptyCall !transfer-encoding=chunked
  data 1 01 0000000000
  want stream 1 1 2
  want rejected 1

upgrade
  must RFC 9113, 8.2.2: \"MUST be treated as malformed\"
  control answered 1
  headers 1 04 call:EmptyCall !upgrade=h2c
  data 1 01 0000000000
  want stream 1 1 2
  want rejected 1

te that isn't trailers
  should RFC 9113, 8.2.2: \"MUST NOT contain any value other than\" that (binds the sender)
  control answered 1
  headers 1 04 83 86 path:EmptyCall 01 str:localhost !te=gzip ~te=trailers content-type=application/grpc
  data 1 01 0000000000
  want stream 1 1 2
  want rejected 1

te that is trailers and more
  should RFC 9113, 8.2.2: \"MUST NOT contain any value other than\" that (binds the sender)
  control answered 1
  headers 1 04 83 86 path:EmptyCall 01 str:localhost !te=trailers,%20gzip ~te=trailers content-type=application/grpc
  data 1 01 0000000000
  want stream 1 1 2
  want rejected 1

a pseudo-header that isn't defined
  must RFC 9113, 8.3: \"MUST treat .. undefined or invalid pseudo-header fields as malformed\"
  control answered 1
  headers 1 04 !:foo=bar call:EmptyCall
  data 1 01 0000000000
  want stream 1 1 2
  want rejected 1

:status in a request
  must RFC 9113, 8.3: \"MUST treat .. undefined or invalid pseudo-header fields as malformed\"
  control answered 1
  headers 1 04 !:status=200 call:EmptyCall
  data 1 01 0000000000
  want stream 1 1 2
  want rejected 1

a pseudo-header after another field
  must RFC 9113, 8.3: \"after a regular field line MUST be treated as malformed\"
  control answered 1
  headers 1 04 83 86 01 str:localhost ~path:EmptyCall te=trailers !path:EmptyCall content-type=application/grpc
  data 1 01 0000000000
  want stream 1 1 2
  want rejected 1

:method twice
  must RFC 9113, 8.3: \"a repeated pseudo-header field name MUST be treated as malformed\"
  control answered 1
  headers 1 04 !83 call:EmptyCall
  data 1 01 0000000000
  want stream 1 1 2
  want rejected 1

:path twice
  must RFC 9113, 8.3: \"a repeated pseudo-header field name MUST be treated as malformed\"
  control answered 1
  headers 1 04 !:path=/a call:EmptyCall
  data 1 01 0000000000
  want stream 1 1 2
  want rejected 1

:scheme twice
  must RFC 9113, 8.3: \"a repeated pseudo-header field name MUST be treated as malformed\"
  control answered 1
  headers 1 04 !86 call:EmptyCall
  data 1 01 0000000000
  want stream 1 1 2
  want rejected 1

:authority twice
  must RFC 9113, 8.3: \"a repeated pseudo-header field name MUST be treated as malformed\"
  control answered 1
  headers 1 04 !:authority=a call:EmptyCall
  data 1 01 0000000000
  want stream 1 1 2
  want rejected 1

no :method
  should RFC 9113, 8.1.1: malformed requests \"that are detected MUST be treated\" as such
  control answered 1
  headers 1 04 ~83 86 path:EmptyCall 01 str:localhost te=trailers content-type=application/grpc
  data 1 01 0000000000
  want stream 1 1 2
  want rejected 1

no :scheme
  should RFC 9113, 8.1.1: malformed requests \"that are detected MUST be treated\" as such
  control answered 1
  headers 1 04 83 ~86 path:EmptyCall 01 str:localhost te=trailers content-type=application/grpc
  data 1 01 0000000000
  want stream 1 1 2
  want rejected 1

no :path
  should RFC 9113, 8.1.1: malformed requests \"that are detected MUST be treated\" as such
  control answered 1
  headers 1 04 83 86 ~path:EmptyCall 01 str:localhost te=trailers content-type=application/grpc
  data 1 01 0000000000
  want stream 1 1 2
  want rejected 1

an empty :path
  should RFC 9113, 8.3.1: it \"MUST NOT be empty\" (it binds the sender)
  control answered 1
  headers 1 04 83 86 !:path= ~path:EmptyCall 01 str:localhost te=trailers content-type=application/grpc
  data 1 01 0000000000
  want stream 1 1 2
  want rejected 1

a block of no fields
  should RFC 9113, 8.1.1: malformed requests \"that are detected MUST be treated\" as such
  control answered 1
  headers 1 04 ~call:EmptyCall
  data 1 01 0000000000
  want stream 1 1 2
  want rejected 1

trailers with a pseudo-header
  must RFC 9113, 8.1: \"pseudo-header fields in trailers MUST treat the request .. as malformed\"
  control answered 1
  headers 1 04 call:FullDuplexCall
  sync
  headers 1 05 !:path=/ ~x=a
  want stream 1 1 2
  want rejected 1

trailers with an upper-case name
  must RFC 9113, 8.2.1: \"minimal validation\": \"MUST be treated as malformed\"
  control answered 1
  headers 1 04 call:FullDuplexCall
  sync
  headers 1 05 !X-a=b ~x=a
  want stream 1 1 2
  want rejected 1

content-length that isn't the length of the DATA
  should RFC 9113, 8.1.1: it is \"malformed\"; such requests \"that are detected MUST be\" errors
  control answered 1
  headers 1 04 call:EmptyCall !content-length=7 ~content-length=5
  data 1 01 0000000000
  want stream 1 1 2
  want rejected 1
  want answered 1

content-length that is the length of the DATA
  must RFC 9113, 6.9: frames but DATA \"MUST be accepted and processed\"; 8.1.1
  control answered 1
  headers 1 04 call:EmptyCall !content-length=5
  data 1 01 0000000000
  want answered 1

several cookie fields
  must RFC 9113, 6.9: frames but DATA \"MUST be accepted and processed\"; 8.2.3: \"MAY be split\"
  control answered 1
  headers 1 04 call:EmptyCall !cookie=a%3db !cookie=c%3dd
  data 1 01 0000000000
  want answered 1
";
