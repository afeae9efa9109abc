//! HAProxy's keywords, by section of its manual (2.4 to 3.0, and some of later ones), each with its fate. What stands in no row is a
//! change of what is served. `keywords` looks here.

use crate::keywords::Sort::{self, Carried, Change, Harmless, Kept};
use crate::reasons::Why;

/// Keywords of one fate, with a blank between any two; and what is said of them.
pub(crate) type Row = (Sort, Why, &'static str);

/// Lines of `global`.
pub(crate) const GLOBAL: [Row; 18] = [
    (Kept, Why::DrainTime, "hard-stop-after"),
    (Kept, Why::Descriptors, "fd-hard-limit ulimit-n"),
    (Carried, Why::LargerLimit, "maxconn"),
    (Carried, Why::ProcessSetting, "nbthread"),
    (Carried, Why::OwnSocket, "stats"),
    (
        Harmless,
        Why::ProcessSetting,
        "ca-base chroot cluster-secret cpu-map cpu-policy cpu-set crt-base daemon description expose-deprecated-directives \
         expose-experimental-directives force-cfg-parser-pause gid grace group insecure-fork-wanted insecure-setuid-wanted \
         issuers-chain-path key-base localpeer master-worker mworker-max-reloads node numa-cpu-mapping pidfile prealloc-fd \
         set-dumpable setcap stats-file strict-limits thread-group thread-groups thread-hard-limit uid unix-bind user \
         busy-polling close-spread-time max-spread-checks maxcompcpuusage maxcomprate maxpipes maxzlibmem no no-memory-trimming \
         noepoll noevports nogetaddrinfo nokqueue nopoll noreuseport nosplice profiling.memory profiling.tasks \
         server-state-base server-state-file spread-checks debug quiet zero-warning anonkey shm-stats-file \
         warn-blocked-traffic-after",
    ),
    (Harmless, Why::NoLogs, "log log-send-hostname log-tag"),
    (Harmless, Why::NoChecks, "external-check"),
    (Harmless, Why::Resolved, "setenv presetenv"),
    (
        Harmless,
        Why::NeedsHttp,
        "51degrees-allow-unmatched 51degrees-cache-size 51degrees-data-file 51degrees-difficulty 51degrees-drift \
         51degrees-property-name-list 51degrees-property-separator 51degrees-use-performance-graph \
         51degrees-use-predictive-graph deviceatlas-json-file deviceatlas-log-level deviceatlas-properties-cookie \
         deviceatlas-separator wurfl-cache-size wurfl-data-file wurfl-information-list wurfl-information-list-separator \
         wurfl-patch-file h1-accept-payload-with-any-method h1-case-adjust h1-case-adjust-file \
         h1-do-not-close-on-insecure-transfer-encoding h2-workaround-bogus-websocket-clients httpclient.resolvers.disabled \
         httpclient.resolvers.id httpclient.resolvers.prefer httpclient.retries httpclient.ssl.ca-file httpclient.ssl.verify \
         httpclient.timeout.connect limited-quic no-quic harden.reject-privileged-ports.quic",
    ),
    (
        Harmless,
        Why::NoTls,
        "maxsslconn maxsslrate ocsp-update.disable ocsp-update.httpproxy ocsp-update.maxdelay ocsp-update.mindelay \
         ocsp-update.mode ssl-default-bind-ciphers ssl-default-bind-ciphersuites ssl-default-bind-client-sigalgs \
         ssl-default-bind-curves ssl-default-bind-options ssl-default-bind-sigalgs ssl-default-server-ciphers \
         ssl-default-server-ciphersuites ssl-default-server-client-sigalgs ssl-default-server-curves ssl-default-server-options \
         ssl-default-server-sigalgs ssl-dh-param-file ssl-engine ssl-load-extra-del-ext ssl-load-extra-files ssl-mode-async \
         ssl-propquery ssl-provider ssl-provider-path ssl-security-level ssl-server-verify ssl-skip-self-issued-ca",
    ),
    (
        Harmless,
        Why::NothingToSay,
        "set-var set-var-fmt pp2-never-send-local",
    ),
    (Change, Why::RateLimit, "maxconnrate maxsessrate"),
    (Change, Why::OtherFiles, "default-path"),
    (Change, Why::Environment, "resetenv unsetenv"),
    (
        Change,
        Why::Lua,
        "lua-load lua-load-per-thread lua-prepend-path",
    ),
    (Change, Why::OtherProcesses, "nbproc"),
    (
        Change,
        Why::UnknownKeyword,
        "harden.reject-privileged-ports.tcp",
    ),
];

/// What stands behind `tune.` in a line of `global`: buffers, pools and turns, none of which decides of a connection.
pub(crate) const TUNE: [Row; 2] = [
    (
        Harmless,
        Why::ProcessSetting,
        "applet.zero-copy-forwarding buffers.limit buffers.reserve bufsize bufsize.small chksize comp.maxlevel \
         disable-fast-forward disable-zero-copy-forwarding epoll.mask-events events.max-events-at-once fd.edge-triggered \
         glitches.kill.cpu-usage h1.zero-copy-fwd-recv h1.zero-copy-fwd-send h1.be.glitches-threshold h1.fe.glitches-threshold \
         h2.be.glitches-threshold h2.be.initial-window-size h2.be.max-concurrent-streams h2.be.rxbuf h2.fe.glitches-threshold \
         h2.fe.initial-window-size h2.fe.max-concurrent-streams h2.fe.max-total-streams h2.fe.rxbuf h2.header-table-size \
         h2.initial-window-size h2.log-errors h2.max-concurrent-streams h2.max-frame-size h2.zero-copy-fwd-send http.cookielen \
         http.logurilen http.maxhdr idle-pool.shared idletimer listener.default-shards listener.multi-queue \
         lua.bool-sample-conversion lua.burst-timeout lua.forced-yield lua.log.loggers lua.log.stderr lua.maxmem lua.openlibs \
         lua.service-timeout lua.session-timeout lua.task-timeout max-checks-per-thread max-rules-at-once maxaccept \
         maxpollevents maxrewrite memory.hot-size memory.pattern-size notsent-lowat.client notsent-lowat.server \
         pass.zero-copy-fwd pattern.cache-size peers.max-updates-at-once pipesize pool-high-fd-ratio pool-low-fd-ratio \
         pt.zero-copy-forwarding quic.back.max-idle-timeout quic.cc-hystart quic.cc.cubic.min-losses quic.disable-tx-pacing \
         quic.disable-udp-gso quic.frontend.conn-tx-buffers.limit quic.frontend.glitches-threshold quic.frontend.max-data-size \
         quic.frontend.max-idle-timeout quic.frontend.max-streams-bidi quic.frontend.max-tx-mem quic.frontend.stream-data-ratio \
         quic.frontend.default-max-window-size quic.max-frame-loss quic.reorder-ratio quic.retry-threshold quic.socket-owner \
         quic.zero-copy-fwd-send rcvbuf.backend rcvbuf.client rcvbuf.frontend rcvbuf.server recv_enough renice.runtime \
         renice.startup ring.queues runqueue-depth sched.low-latency sndbuf.backend sndbuf.client sndbuf.frontend sndbuf.server \
         ssl.cachesize ssl.capture-buffer-size ssl.capture-cipherlist-size ssl.default-dh-param ssl.force-private-cache \
         ssl.hard-maxrecord ssl.keylog ssl.lifetime ssl.maxrecord ssl.ocsp-update.maxdelay ssl.ocsp-update.mindelay \
         ssl.ssl-ctx-cache-size stick-counters takeover-other-tg-connections vars.check-max-size vars.global-max-size \
         vars.proc-max-size vars.reqres-max-size vars.sess-max-size vars.txn-max-size zlib.memlevel zlib.windowsize",
    ),
    (Change, Why::UnknownKeyword, "fail-alloc"),
];

/// Lines of `defaults`, `frontend`, `listen` and `backend`.
pub(crate) const PROXY: [Row; 27] = [
    (Kept, Why::UnknownFetch, "acl"),
    (Kept, Why::SocketAddress, "bind"),
    (Kept, Why::ServerChoice, "default_backend use_backend"),
    (Kept, Why::OtherServer, "default-server dispatch server"),
    (Kept, Why::HttpMode, "mode"),
    (Kept, Why::UnknownKeyword, "stick-table option timeout"),
    (Kept, Why::UnknownAction, "tcp-request"),
    (Carried, Why::Overruled, "backlog"),
    (Carried, Why::LargerLimit, "maxconn"),
    (Carried, Why::NoRetries, "retries"),
    (Carried, Why::ProcessSetting, "clitcpka-idle srvtcpka-idle"),
    (
        Harmless,
        Why::ProcessSetting,
        "bind-process clitcpka-cnt clitcpka-intvl srvtcpka-cnt srvtcpka-intvl",
    ),
    (
        Harmless,
        Why::NoLogs,
        "log log-format log-format-sd error-log-format log-tag log-steps unique-id-format unique-id-header capture declare",
    ),
    (
        Harmless,
        Why::NothingToSay,
        "description id guid enabled grace no",
    ),
    (
        Harmless,
        Why::OneServer,
        "balance hash-type hash-balance-factor hash-preserve-affinity fullconn cookie dynamic-cookie-key stick persist \
         appsession ignore-persist force-persist force-be-switch max-session-srv-conns use-server",
    ),
    (
        Harmless,
        Why::NoChecks,
        "load-server-state-from-file server-state-file-name tcp-check http-check external-check email-alert",
    ),
    (Harmless, Why::NoStatistics, "stats"),
    (
        Harmless,
        Why::NeedsHttp,
        "monitor monitor-uri errorfile errorfiles errorloc errorloc302 errorloc303 http-error http-request http-response \
         http-after-response http-reuse http-send-name-header max-keep-alive-queue compression redirect quic-initial",
    ),
    (Harmless, Why::NotServed, "disabled"),
    (Change, Why::Filter, "filter"),
    (Change, Why::RateLimit, "rate-limit"),
    (Change, Why::Transparent, "transparent"),
    (Change, Why::SourceAddress, "source"),
    (Change, Why::OtherServer, "server-template"),
    (Change, Why::HttpMode, "use-fcgi-app"),
    (Change, Why::Responses, "tcp-response"),
    (Change, Why::OtherFailures, "retry-on"),
];

/// The words behind `option`.
pub(crate) const OPTIONS: [Row; 8] = [
    (Carried, Why::ProcessSetting, "clitcpka srvtcpka tcpka"),
    (
        Harmless,
        Why::NoOption,
        "abortonclose contstats idle-close-on-response logasap nolinger socket-stats splice-auto splice-request splice-response \
         tcp-smart-accept tcp-smart-connect",
    ),
    (
        Harmless,
        Why::NoLogs,
        "dontlog-normal dontlognull httplog httpslog log-health-checks log-separate-errors tcplog",
    ),
    (
        Harmless,
        Why::NoChecks,
        "external-check httpchk ldap-check mysql-check pgsql-check redis-check smtpchk spop-check ssl-hello-chk tcp-check",
    ),
    (
        Harmless,
        Why::OneServer,
        "allbackups persist prefer-last-server redispatch",
    ),
    (
        Harmless,
        Why::NeedsHttp,
        "accept-invalid-http-request accept-invalid-http-response accept-unsafe-violations-in-http-request \
         accept-unsafe-violations-in-http-response checkcache disable-h2-upgrade forceclose forwarded forwardfor \
         h1-case-adjust-bogus-client h1-case-adjust-bogus-server http-buffer-request http-drop-request-trailers \
         http-drop-response-trailers http-ignore-probes http-keep-alive http-no-delay http-pretend-keepalive \
         http-restrict-req-hdr-names http-server-close http-tunnel http-use-htx http-use-proxy-header httpclose originalto \
         use-small-buffers",
    ),
    (Change, Why::OneSilence, "independent-streams"),
    (Change, Why::Transparent, "http_proxy transparent"),
];

/// The words behind `timeout`.
pub(crate) const TIMEOUTS: [Row; 5] = [
    (
        Carried,
        Why::Overruled,
        "client client-fin connect server server-fin tunnel",
    ),
    (Harmless, Why::NoQueue, "queue"),
    (Harmless, Why::NoChecks, "check"),
    (
        Harmless,
        Why::NeedsHttp,
        "http-keep-alive http-request tarpit",
    ),
    (Harmless, Why::NoTls, "client-hs"),
];

/// Options of a line `bind` that are followed by a value.
pub(crate) const BIND_VALUES: [Row; 9] = [
    (Carried, Why::Overruled, "backlog maxconn tcp-ut"),
    (
        Harmless,
        Why::ProcessSetting,
        "id name nice process shards thread guid-prefix label",
    ),
    (
        Harmless,
        Why::NoStatistics,
        "level severity-output expose-fd",
    ),
    (
        Harmless,
        Why::NeedsHttp,
        "proto quic-cc-algo quic-socket nbconn",
    ),
    (Harmless, Why::NothingToSay, "mss tcp-md5sig"),
    (
        Change,
        Why::Tls,
        "alpn ca-file ca-ignore-err ca-sign-file ca-sign-pass ca-verify-file ciphers ciphersuites client-sigalgs crl-file crt \
         crt-ignore-err crt-list curves default-crt ecdhe npn ocsp-update sigalgs ssl-max-ver ssl-min-ver tls-ticket-keys \
         verify ktls",
    ),
    (Change, Why::ProxyProtocol, "accept-netscaler-cip"),
    (Harmless, Why::SocketAddress, "gid group mode uid user"),
    (Change, Why::BindWords, "interface namespace idle-ping"),
];

/// Options of a line `bind` that stand alone.
pub(crate) const BIND_FLAGS: [Row; 6] = [
    (Harmless, Why::ProcessSetting, "nostrict strict tfo v4v6"),
    (Harmless, Why::NoTls, "no-ca-names"),
    (Harmless, Why::NeedsHttp, "quic-force-retry"),
    (Carried, Why::ProxiesNamed, "accept-proxy"),
    (
        Change,
        Why::Tls,
        "allow-0rtt force-sslv3 force-tlsv10 force-tlsv11 force-tlsv12 force-tlsv13 generate-certificates no-alpn no-sslv3 \
         no-strict-sni no-tls-tickets no-tlsv10 no-tlsv11 no-tlsv12 no-tlsv13 prefer-client-ciphers ssl strict-sni tls-tickets",
    ),
    (Change, Why::BindWords, "defer-accept transparent v6only"),
];

/// Options of a server that are followed by a value.
pub(crate) const SERVER_VALUES: [Row; 12] = [
    (Kept, Why::ServerPlaces, "maxconn minconn"),
    (Carried, Why::Overruled, "tcp-ut"),
    (
        Harmless,
        Why::NoChecks,
        "addr agent-addr agent-inter agent-port agent-send check-alpn check-pool-conn-name check-proto check-sni downinter \
         error-limit fall fastinter init-state inter observe on-error on-marked-down on-marked-up port rise slowstart track",
    ),
    (Harmless, Why::OneServer, "cookie guid hash-key id weight"),
    (Harmless, Why::NoQueue, "maxqueue"),
    (
        Harmless,
        Why::HostName,
        "init-addr resolve-net resolve-opts resolve-prefer resolvers",
    ),
    (
        Harmless,
        Why::NoTls,
        "alpn ca-file ciphers ciphersuites client-sigalgs crl-file crt curves npn renegotiate sigalgs sni ssl-max-ver \
         ssl-min-ver verify verifyhost",
    ),
    (
        Harmless,
        Why::NeedsHttp,
        "max-reuse pool-conn-name pool-low-conn pool-max-conn pool-purge-delay proto redir ws idle-ping",
    ),
    (Harmless, Why::NoLogs, "log-bufsize log-proto"),
    (
        Change,
        Why::ProxyProtocol,
        "proxy-v2-options set-proxy-v2-tlv-fmt",
    ),
    (Change, Why::SourceAddress, "source usesrc"),
    (
        Change,
        Why::ServerWords,
        "namespace shard socks4 tcp-md5sig",
    ),
];

/// Options of a server that stand alone.
pub(crate) const SERVER_FLAGS: [Row; 7] = [
    (
        Harmless,
        Why::NoChecks,
        "agent-check check check-reuse-pool check-send-proxy check-ssl check-via-socks4 no-agent-check no-check \
         no-check-send-proxy no-check-ssl",
    ),
    (
        Harmless,
        Why::OneServer,
        "backup disabled enabled no-backup non-stick stick strict-maxconn",
    ),
    (
        Harmless,
        Why::NothingToSay,
        "no-send-proxy no-send-proxy-v2 no-send-proxy-v2-ssl no-send-proxy-v2-ssl-cn no-tfo tfo",
    ),
    (
        Harmless,
        Why::NoTls,
        "allow-0rtt force-sslv3 force-tlsv10 force-tlsv11 force-tlsv12 force-tlsv13 no-renegotiate no-sni-auto no-ssl \
         no-ssl-reuse no-sslv3 no-tls-tickets no-tlsv10 no-tlsv11 no-tlsv12 no-tlsv13 no-verifyhost renegotiate sni-auto \
         ssl-reuse tls-tickets",
    ),
    (Carried, Why::ProxyProtocol, "send-proxy send-proxy-v2"),
    (
        Change,
        Why::ProxyProtocol,
        "send-proxy-v2-ssl send-proxy-v2-ssl-cn",
    ),
    (Change, Why::Tls, "ssl ktls"),
];

/// What rules `tcp-request` do, but for parentheses and numbers of slots.
pub(crate) const ACTIONS: [Row; 6] = [
    (Kept, Why::SilentDrop, "silent-drop"),
    (
        Kept,
        Why::UnknownAction,
        "accept reject sc-inc-gpc sc-inc-gpc0 sc-inc-gpc1 sc-set-gpt sc-set-gpt0 track-sc0 track-sc1 track-sc2",
    ),
    (Harmless, Why::NoLogs, "capture do-log set-log-level"),
    (
        Harmless,
        Why::NothingToSay,
        "set-nice set-var set-var-fmt unset-var",
    ),
    (
        Change,
        Why::ProxyProtocol,
        "expect-netscaler-cip expect-proxy",
    ),
    (
        Change,
        Why::UnknownAction,
        "attach-srv do-resolve ot-group reject-with sc-add-gpc send-spoe-group set-bandwidth-limit set-bc-mark set-bc-tos \
         set-dst set-dst-port set-fc-mark set-fc-tos set-mark set-priority-class set-priority-offset set-src set-src-port \
         set-tos switch-mode use-service",
    ),
];

/// The words of a line `stick-table`.
pub(crate) const STICK_TABLE: [Row; 4] = [
    (
        Kept,
        Why::UnknownKeyword,
        "type len size expire store nopurge",
    ),
    (Harmless, Why::OneServer, "srvkey"),
    (Change, Why::Peers, "peers write-to recv-only"),
    (Change, Why::OtherUnit, "brates-factor"),
];

/// Lines of all other sections, the first of each too: `peers`, `resolvers`, `mailers`, `program`, `userlist`, `http-errors`, `ring`, `cache`, `fcgi-app`,
/// `log-forward`, `log-profile`, `crt-store`, `traces` and `acme`.
pub(crate) const OTHER_SECTIONS: [Row; 2] = [
    (
        Harmless,
        Why::OtherSection,
        "acme cache crt-store fcgi-app http-errors haterm log-profile mailers peers program resolvers ring traces userlist \
         accepted_payload_size account-key acl acme-provider acme-vars backing-file backlog bind bits challenge command contact \
         crt-base curves default-bind default-server description directory disabled docroot enabled errorfile fd-events format \
         group hold http-request http-response index key-base keytype load log log-stderr log-tag mailer map max-age \
         max-object-size max-secondary-entries maxconn maxlen nameserver no on option parse-resolv-conf pass-header path-info \
         peer dgram-bind process-vary provider-name resolve_retries reuse-key server set-param shards size start table timeout \
         total-max-size trace user",
    ),
    (Change, Why::UnknownKeyword, "log-forward"),
];
